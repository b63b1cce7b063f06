// New products written from old ones, for C.
#![tactic(auto)]

ghost use Rattle.told.specs.Given.{is_set, time_given};
ghost use Rattle.parts.specs.Join.{identical, granules};
ghost use Rattle.rewrite_c.specs.Rewriting.{CutTold, JoinTold};

use told::put::put_written;

// The product with only the MDRs whose start lies in the window, at the start of the room: 0, 0, the bytes written, 0.
#[unsafe(no_mangle)]
pub extern "C" fn wl_cut(
    bytes: &[u8],
    first_defined: u8,
    first_day: u16,
    first_milli: u32,
    last_defined: u8,
    last_day: u16,
    last_milli: u32,
    room: &mut [u8],
    answer: &mut [u64; 4],
)
    ensures { CutTold bytes.now (time_given (is_set first_defined) first_day first_milli)
        (time_given (is_set last_defined) last_day last_milli) room.old room.new answer.new }
{
    let first = told::given::time(first_defined, first_day, first_milli);
    let last = told::given::time(last_defined, last_day, last_milli);
    put_written(answer, rewrite::cut::cut(bytes, first, last, room));
}

// One product of two that follow each other, at the start of the room: 0, 0, the bytes written, 0.
#[unsafe(no_mangle)]
pub extern "C" fn wl_join(first: &[u8], second: &[u8], room: &mut [u8], answer: &mut [u64; 4])
    ensures { JoinTold identical first.now second.now room.old room.new answer.new }
{
    put_written(answer, rewrite::join::join(first, second, room));
}

// One product of two granules of a pass that follow each other, at the start of the room: 0, 0, the bytes written, 0.
#[unsafe(no_mangle)]
pub extern "C" fn wl_join_pass(first: &[u8], second: &[u8], room: &mut [u8], answer: &mut [u64; 4])
    ensures { JoinTold granules first.now second.now room.old room.new answer.new }
{
    put_written(answer, rewrite::join::join_pass(first, second, room));
}
