// The times of records, and whether they lie in a window.
ghost use Rattle.std.specs.Prelude.{◌≡◌, ◌+◌, ◌≤◌, ◌<◌, eqb, length};
ghost use Rattle.meter.specs.Integer.{be_at};
ghost use Rattle.meter.specs.Time.{time_at, compared};
ghost use Rattle.record.specs.Times.{is_after};
ghost use Rattle.parts.specs.Cut.{is_up_to, window, within};
ghost use Rattle.parts.specs.CutHeader.{sooner, later};
ghost use Rattle.parts.specs.Pass.{is_late};

use meter::time::{Time, time_order};

fn wide(b: u8) -> u32
    ensures { (result ≡ b) × (result < 256) }
{
    b as u32
}

fn long(v: u32) -> u64
    ensures { (result ≡ v) × (result < 4294967296) }
{
    v as u64
}

// The number in the 6 bytes from `at` on: two and four of them, each of which is one load.
fn bits_at(s: &[u8], at: usize) -> u64
    requires { at + 6 ≤ length s.now }
    ensures { (result ≡ be_at s.now at 6) × (result < 281474976710656) }
{
    let day = wide(s[at]) * 256 + wide(s[at + 1]);
    let first = (wide(s[at + 2]) * 256 + wide(s[at + 3])) * 256 + wide(s[at + 4]);
    let milli = first * 256 + wide(s[at + 5]);
    long(day) * 0x1_0000_0000 + long(milli)
}

pub(crate) fn is_undefined(s: &[u8], at: usize) -> bool
    requires { at + 6 ≤ length s.now }
    ensures { result ≡ eqb (be_at s.now at 6) 281474976710655 }
{
    bits_at(s, at) == 0xffff_ffff_ffff
}

// The time of a product that was judged: what its bits say, with nothing left to test.
pub(crate) fn time_at(s: &[u8], at: usize) -> Option<Time>
    requires { at + 6 ≤ length s.now }
    ensures { result ≡ time_at s.now at }
{
    let bits = bits_at(s, at);
    if bits == 0xffff_ffff_ffff {
        return None;
    }
    Some(Time {
        day: (bits / 0x1_0000_0000) as u16,
        milli: (bits % 0x1_0000_0000) as u32,
    })
}

// Not after the other; undefined times have no order.
pub(crate) fn is_up_to(time: Option<Time>, other: Option<Time>) -> bool
    ensures { result ≡ is_up_to (compared time other) }
{
    time_order(time, other).is_ok_and(|order| order.is_le())
}

pub(crate) fn is_after(time: Option<Time>, other: Option<Time>) -> bool
    ensures { result ≡ is_after (compared time other) }
{
    time_order(time, other).is_ok_and(|order| order.is_gt())
}

// After the other: at all, or by more than the one millisecond that granules of a pass may overlap.
pub(crate) fn is_late(identical: bool, stop: Option<Time>, start: Option<Time>) -> bool
    ensures { result ≡ is_late identical stop start }
{
    if identical {
        return is_after(stop, start);
    }
    moment::overlap(stop, start) > 1
}

pub(crate) fn is_within(first: Option<Time>, last: Option<Time>, time: Option<Time>) -> bool
    ensures { result ≡ within (window first last) time }
{
    is_up_to(first, time) && is_up_to(time, last)
}

pub(crate) fn sooner(time: Option<Time>, other: Option<Time>) -> Option<Time>
    ensures { result ≡ sooner time other }
{
    if time.is_none() || is_after(time, other) {
        other
    } else {
        time
    }
}

pub(crate) fn later(time: Option<Time>, other: Option<Time>) -> Option<Time>
    ensures { result ≡ later time other }
{
    if time.is_none() || is_after(other, time) {
        other
    } else {
        time
    }
}
