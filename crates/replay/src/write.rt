// What the watch records of a product that comes in parts of given lengths.
ghost use Rattle.std.specs.Prelude.{◌≡◌, ◌+◌, ◌*◌, ◌≤◌, ◌<◌, length};
ghost use Rattle.replay.specs.Layout.{sums, length_in};
ghost use Rattle.replay.specs.Record.{RecordIs};
ghost use Rattle.replay.specs.Steps.{PutsThree, Fits, PutsAnswer, PutsLengths, Recording, PutsAnswers, PutsRecord};

use crate::numbers::put_number;
use calendar::{Refusal, fault};
use judge::arrival::Arrival;

// No `usize::from`: the library has none of a u32.
fn wide(length: u32) -> usize
    ensures { (result ≡ length) × (result < 4294967296) }
{
    length as usize
}

// The sum of fewer than 2^32 lengths.
fn sum_in(lengths: &[u32]) -> usize
    requires { length lengths.now < 4294967296 }
    ensures { result ≡ sums (length_in lengths.now) (length lengths.now) }
{
    lengths.iter().map(|length| wide(*length)).sum()
}

// The lengths, from number 1 on.
fn put_lengths(lengths: &[u32], room: &mut [u8])
    requires { 4 + 4 * length lengths.now ≤ length room.old }
    ensures { PutsLengths lengths.now (length lengths.now) room.old room.new }
{
    for (k, length) in lengths.iter().enumerate() {
        put_number(room, 1 + k, wide(*length));
    }
}

// Three numbers, from number j on.
fn put_three(room: &mut [u8], j: usize, number: usize, place: usize, count: usize)
    requires { (4 * j + 12 ≤ length room.old) × (number < 4294967296) × (place < 4294967296) × (count < 4294967296) }
    ensures { PutsThree room.old j number place count room.new }
{
    put_number(room, j, number);
    put_number(room, j + 1, place);
    put_number(room, j + 2, count);
}

// The three numbers of an answer, from number j on.
fn put_answer(room: &mut [u8], j: usize, answer: Arrival)
    requires { (4 * j + 12 ≤ length room.old) × Fits answer }
    ensures { PutsAnswer room.old j answer room.new }
{
    match answer {
        Arrival::Waiting { count, end } => put_three(room, j, 0, end, count),
        Arrival::Refused(r) => put_three(room, j, usize::from(r.number), r.place, 0),
    }
}

// What the watch answers after each part, from number 2 + n on, where n parts make the product.
fn put_answers(lengths: &[u32], product: &[u8], room: &mut [u8])
    requires { Recording lengths.now product.now (length room.old) }
    ensures { PutsAnswers lengths.now product.now (length lengths.now)
        room.old room.new }
{
    let mut w = watch::new();
    let mut at: usize = 0;
    for (k, length) in lengths.iter().enumerate() {
        let to = at + wide(*length);
        let answer = watch::feed(&mut w, &product[at..to]);
        put_answer(room, 2 + lengths.len() + 3 * k, answer);
        at = to;
    }
}

// The record, at the start of a room that is long enough.
fn put_record(lengths: &[u32], product: &[u8], room: &mut [u8])
    requires { Recording lengths.now product.now (length room.old) }
    ensures { PutsRecord lengths.now product.now room.old room.new }
{
    let n = lengths.len();
    put_number(room, 0, n);
    put_lengths(lengths, room);
    put_number(room, 1 + n, n);
    put_answers(lengths, product, room);
}

// The record of the product's arrival in parts of these lengths, at the start of the room.
pub fn write_record(lengths: &[u32], product: &[u8], room: &mut [u8]) -> Result<usize, Refusal>
    ensures { RecordIs lengths.now product.now room.old result room.new }
{
    let n = lengths.len();
    // A count has 4 bytes.
    if n > 0xffff_ffff || sum_in(lengths) != product.len() {
        return Err(Refusal {
            number: fault::PART_LENGTHS,
            place: 0,
        });
    }
    let bytes = 8 + 16 * n;
    if room.len() < bytes {
        return Err(Refusal {
            number: fault::ROOM,
            place: bytes,
        });
    }
    put_record(lengths, product, room);
    Ok(bytes)
}
