// A recorded arrival run again: the first part whose answer differs, or none.
ghost use Rattle.std.specs.Prelude.{◌≡◌, ◌+◌, ◌*◌, ◌≤◌, ◌<◌, eqb, length};
ghost use Rattle.replay.specs.Layout.{size_of, length_at, sums};
ghost use Rattle.replay.specs.Replay.{ReplayIs};
ghost use Rattle.replay.specs.Steps.{HasLengths, IsAnswer, AgreesIs, Parts};

use crate::numbers::number_at;
use calendar::{Refusal, fault};
use judge::arrival::Arrival;

// The record has the bytes that its two counts ask for, no fewer and no more.
fn is_sized(recorded: &[u8]) -> bool
    ensures { result ≡ eqb (length recorded.now) (size_of recorded.now) }
{
    let len = recorded.len();
    if len < 8 {
        return false;
    }
    let n = number_at(recorded, 0);
    if len - 8 < 4 * n {
        return false;
    }
    len == 8 + 4 * n + 12 * number_at(recorded, 1 + n)
}

// The sum of the first n lengths: there are fewer than 2^32, each below 2^32.
fn sum_of(recorded: &[u8], n: usize) -> usize
    requires { HasLengths recorded.now n }
    ensures { result ≡ sums (length_at recorded.now) n }
{
    let mut sum: usize = 0;
    for k in 0..n {
        sum += number_at(recorded, 1 + k);
    }
    sum
}

// The three numbers from j on are these.
fn is_answer(recorded: &[u8], j: usize, number: usize, place: usize, count: usize) -> bool
    requires { 4 * j + 12 ≤ length recorded.now }
    ensures { IsAnswer recorded.now j number place count result }
{
    number_at(recorded, j) == number
        && number_at(recorded, j + 1) == place
        && number_at(recorded, j + 2) == count
}

// The three numbers from j on are those of the answer.
fn is_recorded(recorded: &[u8], j: usize, answer: Arrival) -> bool
    requires { 4 * j + 12 ≤ length recorded.now }
    ensures { AgreesIs recorded.now j answer result }
{
    match answer {
        Arrival::Waiting { count, end } => is_answer(recorded, j, 0, end, count),
        Arrival::Refused(r) => is_answer(recorded, j, usize::from(r.number), r.place, 0),
    }
}

// The n parts of a record that fits the product.
fn replay_parts(recorded: &[u8], product: &[u8], n: usize) -> Result<Option<usize>, Refusal>
    requires { Parts recorded.now product.now n }
    ensures { ReplayIs recorded.now product.now result }
{
    let mut w = watch::new();
    let mut at: usize = 0;
    for k in 0..n {
        let to = at + number_at(recorded, 1 + k);
        let answer = watch::feed(&mut w, &product[at..to]);
        if !is_recorded(recorded, 2 + n + 3 * k, answer) {
            return Ok(Some(k));
        }
        at = to;
    }
    Ok(None)
}

// Feeds a new watch the product in the record's parts, and compares what it answers: the first part whose answer differs, counted from 0.
pub fn replay(recorded: &[u8], product: &[u8]) -> Result<Option<usize>, Refusal>
    ensures { ReplayIs recorded.now product.now result }
{
    if !is_sized(recorded) {
        return Err(Refusal {
            number: fault::RECORD_LENGTH,
            place: 0,
        });
    }
    let n = number_at(recorded, 0);
    if number_at(recorded, 1 + n) != n {
        return Err(Refusal {
            number: fault::RECORD_COUNTS,
            place: 0,
        });
    }
    if sum_of(recorded, n) != product.len() {
        return Err(Refusal {
            number: fault::PART_LENGTHS,
            place: 0,
        });
    }
    replay_parts(recorded, product, n)
}
