// Generalised times: 14 digits and Z, YYYYMMDDHHMMSSZ, or 17 with the millisecond, read and written; and short CDS times to
// long text and back.
ghost use Rattle.std.specs.Prelude.{◌≡◌, true, ◌+◌, ◌-◌, ◌≤◌, ◌<◌, length};
ghost use Rattle.calendar.specs.Said.{said};
ghost use Rattle.meter.specs.Time.{is_time, is_milli};
ghost use Rattle.meter.specs.General.{digits_of, run_of, number_of, is_none, is_digits, moment_at, last_second, is_moment};
ghost use Rattle.meter.specs.General.{general_read_at, fits_general, WritesGeneral};
ghost use Rattle.meter.specs.General.{put_digits, put_none, put_moment, put_general};
ghost use Rattle.meter.specs.General.{minute_of, moment_of, milli_of, general_of, time_of_moment, text_time_at, WritesTimeText, TimeTextBack};

use crate::time::Time;
use calendar::{Date, Refusal, fault};

#[derive(Clone, Copy)]
pub struct Moment {
    pub date: Date,
    pub hour: u8,
    pub minute: u8,
    pub second: u8,
    pub milli: u16,
}

fn digits(long: bool) -> usize
    ensures { result ≡ digits_of long }
{
    if long { 17 } else { 14 }
}

// How many of the bytes are `lo` to `hi`, up to the first that is not.
pub fn run(bytes: &[u8], lo: u8, hi: u8) -> usize
    ensures { (result ≡ run_of lo hi bytes.now 0 (length bytes.now)) × (result ≤ length bytes.now) }
{
    bytes
        .iter()
        .position(|b| *b < lo || hi < *b)
        .unwrap_or(bytes.len())
}

fn digit(b: u64) -> u64
    ensures { result ≡ b - 48 }
{
    if b < 48 { 0 } else { b - 48 }
}

// The number of at most 4 digits.
fn number(bytes: &[u8], at: usize, n: usize) -> u64
    requires { (n ≤ 4) × (at + n ≤ length bytes.now) }
    ensures { result ≡ number_of bytes.now at n }
{
    let mut v: u64 = 0;
    for b in &bytes[at..at + n] {
        v = v * 10 + digit(crate::integer::wide(*b));
    }
    v
}

// Undefined in either spelling: x's, and at the end x or Z.
fn is_none(bytes: &[u8], at: usize, n: usize) -> bool
    requires { at + n < length bytes.now }
    ensures { result ≡ is_none n bytes.now at }
{
    if run(&bytes[at..at + n], 120, 120) != n {
        return false;
    }
    if bytes[at + n] == 120 {
        return true;
    }
    bytes[at + n] == 90
}

fn is_digits(bytes: &[u8], at: usize, n: usize) -> bool
    requires { at + n < length bytes.now }
    ensures { result ≡ is_digits n bytes.now at }
{
    if run(&bytes[at..at + n], 48, 57) != n {
        return false;
    }
    bytes[at + n] == 90
}

fn moment_at(bytes: &[u8], at: usize, n: usize) -> Moment
    requires { (14 ≤ n) × (n ≤ 17) × (at + n < length bytes.now) × (is_digits n bytes.now at ≡ true) }
    ensures { result ≡ moment_at n bytes.now at }
{
    Moment {
        date: Date {
            year: number(bytes, at, 4) as u16,
            month: number(bytes, at + 4, 2) as u8,
            day: number(bytes, at + 6, 2) as u8,
        },
        hour: number(bytes, at + 8, 2) as u8,
        minute: number(bytes, at + 10, 2) as u8,
        second: number(bytes, at + 12, 2) as u8,
        milli: number(bytes, at + 14, n - 14) as u16,
    }
}

// The greatest second of a minute.
fn last_second(date: Date, hour: u8, minute: u8) -> u8
    ensures { result ≡ last_second date hour minute }
{
    if hour != 23 {
        return 59;
    }
    if minute != 59 {
        return 59;
    }
    if calendar::is_leap_date(date) { 60 } else { 59 }
}

fn is_moment(t: Moment) -> bool
    ensures { result ≡ is_moment t }
{
    let date = t.date;
    if !calendar::is_date(date) {
        return false;
    }
    if t.hour > 23 {
        return false;
    }
    if t.minute > 59 {
        return false;
    }
    if t.second > last_second(date, t.hour, t.minute) {
        return false;
    }
    t.milli <= 999
}

pub fn read_general(bytes: &[u8], at: usize, long: bool) -> Result<Option<Moment>, Refusal>
    ensures { said result ≡ general_read_at long bytes.now at }
{
    let n = digits(long);
    if !crate::integer::holds(bytes.len(), at, n + 1) {
        return Err(Refusal {
            number: fault::OUTSIDE,
            place: bytes.len(),
        });
    }
    if is_none(bytes, at, n) {
        return Ok(None);
    }
    if !is_digits(bytes, at, n) {
        return Err(Refusal {
            number: fault::MALFORMED,
            place: 0,
        });
    }
    let t = moment_at(bytes, at, n);
    if !is_moment(t) {
        return Err(Refusal {
            number: fault::MALFORMED,
            place: 0,
        });
    }
    Ok(Some(t))
}

// The last n digits of `v` from `at` on.
fn put_digits(room: &mut [u8], at: usize, n: usize, v: u64)
    requires { at + n ≤ length room.old }
    ensures { room.new ≡ put_digits room.old at n v }
{
    let mut rest = v;
    for i in (0..n).rev() {
        room[at + i] = 48 + ((rest % 10) as u8);
        rest = rest / 10;
    }
}

fn put_moment(room: &mut [u8], n: usize, t: Moment)
    requires { (14 ≤ n) × (n < length room.old) }
    ensures { room.new ≡ put_moment n room.old t }
{
    let date = t.date;
    put_digits(room, 0, 4, date.year as u64);
    put_digits(room, 4, 2, date.month as u64);
    put_digits(room, 6, 2, date.day as u64);
    put_digits(room, 8, 2, t.hour as u64);
    put_digits(room, 10, 2, t.minute as u64);
    put_digits(room, 12, 2, t.second as u64);
    put_digits(room, 14, n - 14, t.milli as u64);
    room[n] = 90;
}

// 002's spelling of an undefined time: x's and a Z.
fn put_none(room: &mut [u8], n: usize)
    requires { n < length room.old }
    ensures { room.new ≡ put_none n room.old }
{
    room[..n].fill(120);
    room[n] = 90;
}

fn put_general(room: &mut [u8], n: usize, time: Option<Moment>)
    requires { (14 ≤ n) × (n < length room.old) }
    ensures { room.new ≡ put_general n room.old time }
{
    match time {
        None => put_none(room, n),
        Some(t) => put_moment(room, n, t),
    }
}

// Whether a time can be written: a moment of the calendar, and with no millisecond in the short form.
pub fn fits_general(long: bool, time: Option<Moment>) -> bool
    ensures { result ≡ fits_general long time }
{
    match time {
        None => true,
        Some(t) => {
            if !is_moment(t) {
                return false;
            }
            if long {
                return true;
            }
            t.milli == 0
        }
    }
}

pub fn write_general(room: &mut [u8], long: bool, time: Option<Moment>) -> Result<usize, Refusal>
    ensures { WritesGeneral room.old long time result room.new }
{
    let n = digits(long);
    if !fits_general(long, time) {
        return Err(Refusal {
            number: fault::MALFORMED,
            place: 0,
        });
    }
    if room.len() < n + 1 {
        return Err(Refusal {
            number: fault::ROOM,
            place: n + 1,
        });
    }
    put_general(room, n, time);
    Ok(n + 1)
}

// The minute of the day; the extra second of a day that has one is in the last.
fn minute_of(milli: u32) -> u32
    ensures { result ≡ minute_of milli }
{
    let minutes = milli / 60_000;
    if minutes < 1439 { minutes } else { 1439 }
}

fn moment_of(day: u16, milli: u32) -> Moment
    requires { is_milli day milli ≡ true }
    ensures { result ≡ moment_of day milli }
{
    let minutes = minute_of(milli);
    Moment {
        date: calendar::date_of(day),
        hour: (minutes / 60) as u8,
        minute: (minutes % 60) as u8,
        second: (milli / 1000 - 60 * minutes) as u8,
        milli: (milli % 1000) as u16,
    }
}

fn milli_of(t: Moment) -> u32
    ensures { result ≡ milli_of t }
{
    let minutes = (t.hour as u32) * 60 + (t.minute as u32);
    (minutes * 60 + (t.second as u32)) * 1000 + (t.milli as u32)
}

// A day and millisecond as the moment that they are.
fn general_of(time: Option<Time>) -> Option<Moment>
    requires { is_time time ≡ true }
    ensures { (result ≡ general_of time) × (fits_general true result ≡ true) }
{
    match time {
        None => None,
        Some(t) => Some(moment_of(t.day, t.milli)),
    }
}

// A day and millisecond as long text.
pub fn time_text(room: &mut [u8], time: Option<Time>) -> Result<usize, Refusal>
    ensures writes_time_text { WritesTimeText room.old time result room.new }
    ensures reads_back { TimeTextBack time result room.new }
{
    if !crate::time::is_time(time) {
        return Err(Refusal {
            number: fault::MALFORMED,
            place: 0,
        });
    }
    write_general(room, true, general_of(time))
}

// A moment as a day and millisecond, where it has a day number.
fn time_of(general: Option<Moment>) -> Result<Option<Time>, Refusal>
    ensures { said result ≡ time_of_moment general }
{
    let Some(t) = general else {
        return Ok(None);
    };
    let day = calendar::day_number(t.date)?;
    Ok(Some(Time {
        day,
        milli: milli_of(t),
    }))
}

// Long text as a day and millisecond; 21 also for a date outside days 0 to 65535.
pub fn text_time(bytes: &[u8], at: usize) -> Result<Option<Time>, Refusal>
    ensures { said result ≡ text_time_at bytes.now at }
{
    time_of(read_general(bytes, at, true)?)
}
