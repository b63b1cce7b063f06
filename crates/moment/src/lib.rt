// The line of milliseconds, on which each of request Two's days has its extra second (02, request Twelve).
#![tactic(auto)]

ghost use Rattle.std.specs.Prelude.{◌≡◌, ◌+◌, ◌-◌, ◌/◌, ◌%◌, ◌≤◌, ◌<◌};
ghost use Rattle.meter.specs.Time.{time_of};
ghost use Rattle.moment.specs.Moment.{extra_before, on_line, overlap_between, undefined_between};
ghost use Rattle.moment.specs.Pairing.{extra_of, BetweenIs};

use meter::time::Time;

// All 48 bits one.
const UNDEFINED: u64 = 0xffff_ffff_ffff;

// What a pair adds: milliseconds of gap, of overlap, and 1 where one of its times is undefined.
#[derive(Clone, Copy)]
pub struct Between {
    pub gap: u64,
    pub overlap: u64,
    pub undefined: u64,
}

// The milliseconds that the extra second of `leap` adds before `day` begins.
fn extra(leap: u64, day: u64) -> u64
    ensures { (result ≡ extra_of leap day) × (result ≤ 1000) }
{
    if leap < day {
        return 1000;
    }
    0
}

fn extra_before(day: u64) -> u64
    ensures { (result ≡ extra_before day) × (result ≤ 5000) }
{
    let first = extra(2191, day);
    let second = extra(3287, day);
    let third = extra(4564, day);
    let fourth = extra(5659, day);
    first + second + third + fourth + extra(6209, day)
}

// Where a time stands, by its bits.
fn on_line(bits: u64) -> u64
    ensures { result ≡ on_line (bits / 0x1_0000_0000) (bits % 0x1_0000_0000) }
{
    let day = bits / 0x1_0000_0000;
    day * 86_400_000 + extra_before(day) + bits % 0x1_0000_0000
}

// 1 where one of the two is undefined.
fn undefined_of(stop: u64, start: u64) -> u64
    ensures { result ≡ undefined_between (time_of stop) (time_of start) }
{
    if stop == UNDEFINED {
        return 1;
    }
    if start == UNDEFINED {
        return 1;
    }
    0
}

// `x`, or `y` where `none` is 1.
fn unless(none: u64, x: u64, y: u64) -> u64
    ensures { (none ≡ 0 → result ≡ x) × (none ≡ 1 → result ≡ y) }
{
    if none == 0 {
        return x;
    }
    y
}

// One stop and the next start, by their bits: 48 of a time, and of any number what lies above the millisecond's 32 is the day. Where one is
// undefined the start is taken for both. (No early return, and no difference that stops at 0, which on x86-64 is a branch: of times in no order
// it would be guessed wrong.)
pub fn time_between(stop: u64, start: u64) -> Between
    ensures { BetweenIs (time_of stop) (time_of start) result }
{
    let none = undefined_of(stop, start);
    let to = on_line(start);
    let from = unless(none, on_line(stop), to);
    let end = from.max(to);
    Between {
        gap: end - from,
        overlap: end - to,
        undefined: none,
    }
}

// Where a time stands.
fn place_of(day: u16, milli: u32) -> u64
    ensures { result ≡ on_line day milli }
{
    let d = day as u64;
    d * 86_400_000 + extra_before(d) + milli as u64
}

// The milliseconds that a stop lies after a start; none where one is undefined.
pub fn overlap(stop: Option<Time>, start: Option<Time>) -> u64
    ensures { result ≡ overlap_between stop start }
{
    match stop {
        None => 0,
        Some(Time { day, milli }) => match start {
            None => 0,
            Some(
                Time {
                    day: other,
                    milli: late,
                },
            ) => place_of(day, milli).saturating_sub(place_of(other, late)),
        },
    }
}
