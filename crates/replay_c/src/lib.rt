// An arrival recorded and replayed, for C.
#![tactic(auto)]

ghost use Rattle.std.specs.Prelude.{◌≡◌};
ghost use Rattle.std.specs.declared.result.Result.TheVariants.{Ok};
ghost use Rattle.replay_c.specs.Replaying.{replayed_said, ReplayTold, RecordTold};

use told::put::{told, written};

// The first part whose answer differs.
fn replayed_numbers(part: Option<usize>) -> [u64; 4]
    ensures { result ≡ replayed_said (Ok part) }
{
    match part {
        None => [0, 0, 0, 0],
        Some(part) => [0, 0, 1, part as u64],
    }
}

// The watch replayed: 0, 0, 0, 0 where no answer differs, and 0, 0, 1, the first part whose answer does, counted from 0.
#[unsafe(no_mangle)]
pub extern "C" fn wl_replay(recorded: &[u8], product: &[u8], answer: &mut [u64; 4])
    ensures { ReplayTold recorded.now product.now answer.new }
{
    *answer = told(replay::run::replay(recorded, product), replayed_numbers);
}

// The record of the product's arrival in parts of these lengths, at the start of the room: 0, 0, the bytes written, 0.
#[unsafe(no_mangle)]
pub extern "C" fn wl_record_arrival(
    lengths: &[u32],
    product: &[u8],
    room: &mut [u8],
    answer: &mut [u64; 4],
)
    ensures { RecordTold lengths.now product.now room.old room.new
        answer.new }
{
    *answer = written(replay::write::write_record(lengths, product, room));
}
