// Whether the times of a header stand. Nearly all do by a look at their 12 bytes, whichever day they are of: each millisecond is one that
// every day has, or the time is undefined. Of the others `record` judges, by the last millisecond of their days.
ghost use Rattle.std.specs.Prelude.{◌≡◌, ◌+◌, ◌*◌, ◌<◌, ◌≤◌, true, ◌⊎◌, length};
ghost use Rattle.meter.specs.Time.{is_time, time_of};
ghost use Rattle.record.specs.Times.{timed_at};

use crate::header::{pair, word};

// Every day has the milliseconds before this one, whichever is its last (law `every-day` of `meter`).
const EVERY_DAY: u32 = 86_400_000;

// All 48 bits one.
const UNDEFINED: usize = 0xffff_ffff_ffff;

// A time for sure. (It is the next millisecond that is compared, which is 0 after 32 ones: the bound is a multiple of 256, and by the
// millisecond itself the compiler would compare its upper three bytes alone and no longer read the four at once.)
fn is_sure(day: usize, milli: usize) -> bool
    requires { milli < 4294967296 }
    ensures { result ≡ true → is_time (time_of (day * 0x1_0000_0000 + milli)) ≡ true }
{
    let next = std::num::wrapping_add_u32(milli as u32, 1);
    (next <= EVERY_DAY) & ((next != 0) | (day == 65535))
}

// The first time is undefined, or not after the second: an undefined time is the greatest number.
fn in_line(start: usize, stop: usize) -> bool
    ensures { result ≡ true → (start ≤ stop) ⊎ (start ≡ 0xffff_ffff_ffff) }
{
    (start <= stop) | (start == UNDEFINED)
}

// Both times for sure, and in line. (No branch comes before the last of these tests: whether a time is undefined cannot be guessed, and a
// wrong guess costs more than all of them.)
pub(crate) fn surely_stand(s: &[u8], at: usize) -> bool
    requires { at + 20 ≤ length s.now }
    ensures { result ≡ true → timed_at s.now at ≡ true }
{
    let day = pair(s, at + 8);
    let milli = word(s, at + 10);
    let other_day = pair(s, at + 14);
    let other_milli = word(s, at + 16);
    let sure = is_sure(day, milli) & is_sure(other_day, other_milli);
    let lined = in_line(
        day * 0x1_0000_0000 + milli,
        other_day * 0x1_0000_0000 + other_milli,
    );
    sure & lined
}

pub(crate) fn stand(s: &[u8], at: usize) -> bool
    requires { at + 20 ≤ length s.now }
    ensures { result ≡ timed_at s.now at }
{
    if surely_stand(s, at) {
        return true;
    }
    record::times::times_stand(s, at)
}
