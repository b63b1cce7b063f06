// Short CDS times: the day from 1 January 2000 in 2 bytes, the millisecond of the day in 4.
ghost use Rattle.std.specs.Prelude.{◌≡◌};
ghost use Rattle.calendar.specs.Said.{said};
ghost use Rattle.meter.specs.Time.{last_milli, is_milli, is_time, bits_of, time_read_at};
ghost use Rattle.meter.specs.Time.{order_of, compared, WritesTime, TimeBack};

use calendar::{Refusal, fault};
use std::cmp::Ordering;

#[derive(Clone, Copy)]
pub struct Time {
    pub day: u16,
    pub milli: u32,
}

// All 48 bits one.
const UNDEFINED: u64 = 0xffff_ffff_ffff;

// The greatest millisecond of a day.
pub(crate) fn last_milli(day: u16) -> u32
    ensures { result ≡ last_milli day }
{
    if calendar::is_leap_day(day) {
        86_400_999
    } else {
        86_399_999
    }
}

pub(crate) fn is_milli(day: u16, milli: u32) -> bool
    ensures { result ≡ is_milli day milli }
{
    milli <= last_milli(day)
}

pub fn read_time(bytes: &[u8], at: usize) -> Result<Option<Time>, Refusal>
    ensures { said result ≡ time_read_at bytes.now at }
{
    if !crate::integer::holds(bytes.len(), at, 6) {
        return Err(Refusal {
            number: fault::OUTSIDE,
            place: bytes.len(),
        });
    }
    let bits = crate::integer::be(bytes, at, 6);
    if bits == UNDEFINED {
        return Ok(None);
    }
    let day = (bits / 0x1_0000_0000) as u16;
    let milli = (bits % 0x1_0000_0000) as u32;
    if !is_milli(day, milli) {
        return Err(Refusal {
            number: fault::MALFORMED,
            place: 0,
        });
    }
    Ok(Some(Time { day, milli }))
}

pub(crate) fn is_time(time: Option<Time>) -> bool
    ensures { result ≡ is_time time }
{
    match time {
        None => true,
        Some(t) => is_milli(t.day, t.milli),
    }
}

// The 48 bits of a time.
fn time_bits(time: Option<Time>) -> u64
    ensures { result ≡ bits_of time }
{
    match time {
        None => UNDEFINED,
        Some(t) => (t.day as u64) * 0x1_0000_0000 + (t.milli as u64),
    }
}

pub fn write_time(room: &mut [u8], time: Option<Time>) -> Result<usize, Refusal>
    ensures writes_time { WritesTime room.old time result room.new }
    ensures reads_back { TimeBack time result room.new }
{
    crate::integer::write_word(room, 6, is_time(time), time_bits(time))
}

// The order of two times that are defined and valid: by day, then by millisecond.
fn in_order(time: Time, other: Time) -> Ordering
    ensures { result ≡ order_of time.day time.milli other.day other.milli }
{
    time.day.cmp(&other.day).then(time.milli.cmp(&other.milli))
}

// By day, then by millisecond; 21 where either time is undefined or invalid.
pub fn time_order(time: Option<Time>, other: Option<Time>) -> Result<Ordering, Refusal>
    ensures { said result ≡ compared time other }
{
    match (time, other) {
        (Some(t), Some(u)) if is_milli(t.day, t.milli) && is_milli(u.day, u.milli) => {
            Ok(in_order(t, u))
        }
        _ => Err(Refusal {
            number: fault::MALFORMED,
            place: 0,
        }),
    }
}
