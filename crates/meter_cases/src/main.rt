// Runs the leaf vectors and the paper's cases on `calendar` and `meter`. A case is 96 bytes of standard input (tools/leaf-cases
// writes them): byte 0 its kind, then what is handed in, and from byte 48 on the answer that it should get. Prints how many cases
// of each kind agreed, and each disagreement whole.
#![tactic(auto)]

use calendar::{Date, Refusal};
use cases::answer::{Answer, judged, refused, tagged, value, written};
use cases::counts::{Counts, counted, none, print_counts};
use cases::input::{byte, fitting, is_same, part, read, word};
use meter::general::Moment;
use meter::integer::bits_of;
use meter::scaled::{Reading, Scaled};
use meter::time::Time;
use std::cmp::Ordering;
use std::io;
use std::io::{Read, Write};

// The names of the kinds, 16 bytes each.
const NAMES: [u8; 304] = *b"\
unknown         \
read_unsigned   \
read_signed     \
write_unsigned  \
write_signed    \
read_time       \
write_time      \
time_order      \
read_general    \
write_general   \
time_text       \
text_time       \
read_scaled     \
write_scaled    \
round_to        \
reading_of      \
date_of         \
day_number      \
is_date         ";

// ---- the numbers of a case
fn integer(case: &[u8], at: usize) -> i64 {
    meter::integer::read_signed(case, at, 8).unwrap_or(0)
}

fn short(case: &[u8], at: usize) -> u16 {
    (word(case, at, 2) % 65536) as u16
}

// A byte in two's complement.
fn small(b: u8) -> i8 {
    if b < 128 {
        b as i8
    } else {
        -1 - ((255 - b) as i8)
    }
}

// ---- answers: tag 2 is undefined or missing, 3 whole, 4 between
fn scaled_value(v: i64, scale: i8) -> Answer {
    value(bits_of(v), bits_of(i64::from(scale)), 0)
}

fn date_value(d: Date) -> Answer {
    value(d.year as u64, (d.month as u64) * 256 + (d.day as u64), 0)
}

fn moment_value(t: Moment) -> Answer {
    let clock = (t.hour as u64) * 65536 + (t.minute as u64) * 256 + (t.second as u64);
    value(
        t.date.year as u64,
        (t.date.month as u64) * 256 + (t.date.day as u64),
        clock * 65536 + (t.milli as u64),
    )
}

fn time_value(t: Option<Time>) -> Answer {
    match t {
        None => tagged(2, true),
        Some(t) => value(t.day as u64, t.milli as u64, 0),
    }
}

fn time_read(r: Result<Option<Time>, Refusal>) -> Answer {
    match r {
        Ok(t) => time_value(t),
        Err(r) => refused(r, true),
    }
}

// The float is the one whose bits stand in the case, a zero's sign too; none is a NaN.
fn float_value(case: &[u8], tag: u8, q: f64) -> Answer {
    let bits = word(case, 64, 8);
    if bits % 0x8000_0000_0000_0000 > 0x7ff0_0000_0000_0000 {
        return tagged(tag, false);
    }
    let want = f64::from_bits(bits);
    tagged(tag, q == want && 1.0 / q == 1.0 / want)
}

// ---- what is handed in
// The bytes of a reader: their number at 1, themselves from 4 on.
fn lent(case: &[u8]) -> &[u8] {
    part(case, 4, byte(case, 1) as usize)
}

fn offset(case: &[u8]) -> usize {
    byte(case, 2) as usize
}

fn width(case: &[u8]) -> usize {
    byte(case, 40) as usize
}

fn time_in(case: &[u8], at: usize) -> Option<Time> {
    if at > 40 || byte(case, at) == 1 {
        return None;
    }
    Some(Time {
        day: short(case, at + 1),
        milli: (word(case, at + 3, 4) % 0x1_0000_0000) as u32,
    })
}

fn date_in(case: &[u8]) -> Date {
    Date {
        year: short(case, 4),
        month: byte(case, 6),
        day: byte(case, 7),
    }
}

fn general_in(case: &[u8]) -> Option<Moment> {
    if byte(case, 3) == 1 {
        return None;
    }
    Some(Moment {
        date: date_in(case),
        hour: byte(case, 8),
        minute: byte(case, 9),
        second: byte(case, 10),
        milli: short(case, 11),
    })
}

fn scaled_in(case: &[u8]) -> Option<Scaled> {
    if byte(case, 3) == 1 {
        return None;
    }
    Some(Scaled {
        integer: integer(case, 4),
        scale: small(byte(case, 12)),
    })
}

// ---- the cases, by their kinds
fn run_read_unsigned(case: &[u8]) -> Answer {
    match meter::integer::read_unsigned(lent(case), offset(case), width(case)) {
        Ok(v) => value(v, 0, 0),
        Err(r) => refused(r, true),
    }
}

fn run_read_signed(case: &[u8]) -> Answer {
    match meter::integer::read_signed(lent(case), offset(case), width(case)) {
        Ok(v) => scaled_value(v, 0),
        Err(r) => refused(r, true),
    }
}

fn run_order(case: &[u8]) -> Answer {
    match meter::time::time_order(time_in(case, 3), time_in(case, 13)) {
        Ok(Ordering::Less) => value(0, 0, 0),
        Ok(Ordering::Equal) => value(1, 0, 0),
        Ok(Ordering::Greater) => value(2, 0, 0),
        Err(r) => refused(r, true),
    }
}

fn run_read_general(case: &[u8]) -> Answer {
    match meter::general::read_general(lent(case), offset(case), byte(case, 40) == 1) {
        Ok(None) => tagged(2, true),
        Ok(Some(t)) => moment_value(t),
        Err(r) => refused(r, true),
    }
}

fn run_read_scaled(case: &[u8]) -> Answer {
    match meter::scaled::read_scaled(lent(case), offset(case), width(case), byte(case, 41) == 1) {
        Ok(None) => tagged(2, true),
        Ok(Some(x)) => scaled_value(x.integer, x.scale),
        Err(r) => refused(r, true),
    }
}

fn run_round(case: &[u8]) -> Answer {
    match meter::scaled::round_to(scaled_in(case), small(byte(case, 13))) {
        Ok(None) => tagged(2, true),
        Ok(Some(m)) => scaled_value(m, 0),
        Err(r) => refused(r, true),
    }
}

fn run_reading(case: &[u8]) -> Answer {
    match meter::scaled::reading_of(scaled_in(case)) {
        Ok(Reading::Missing) => tagged(2, true),
        Ok(Reading::Whole(q)) => float_value(case, 3, q),
        Ok(Reading::Between(q)) => float_value(case, 4, q),
        Err(r) => refused(r, true),
    }
}

fn run_day_number(case: &[u8]) -> Answer {
    match calendar::day_number(date_in(case)) {
        Ok(n) => value(n as u64, 0, 0),
        Err(r) => refused(r, true),
    }
}

fn run_is_date(case: &[u8]) -> Answer {
    value(u64::from(calendar::is_date(date_in(case))), 0, 0)
}

// What each writer writes into the lent room.
fn write_into(case: &[u8], kind: u8, room: &mut [u8]) -> Result<usize, Refusal> {
    match kind {
        3 => meter::integer::write_unsigned(room, width(case), word(case, 4, 8)),
        4 => meter::integer::write_signed(room, width(case), integer(case, 4)),
        6 => meter::time::write_time(room, time_in(case, 3)),
        9 => meter::general::write_general(room, byte(case, 40) == 1, general_in(case)),
        10 => meter::general::time_text(room, time_in(case, 3)),
        _ => meter::scaled::write_scaled(room, width(case), byte(case, 41) == 1, scaled_in(case)),
    }
}

// The first bytes of the room are lent, as many as the case says; at exit the room is what the case has from byte 64 on.
fn write_in(case: &[u8], kind: u8, room: &mut [u8]) -> Answer {
    let n = fitting(byte(case, 1) as usize, room);
    let w = write_into(case, kind, &mut room[..n]);
    written(w, is_same(room, case, 64))
}

fn run_writer(case: &[u8], kind: u8) -> Answer {
    let mut room = [0xaau8; 32];
    write_in(case, kind, &mut room)
}

fn answered(case: &[u8]) -> Answer {
    let kind = byte(case, 0);
    match kind {
        1 => run_read_unsigned(case),
        2 => run_read_signed(case),
        5 => time_read(meter::time::read_time(lent(case), offset(case))),
        7 => run_order(case),
        8 => run_read_general(case),
        11 => time_read(meter::general::text_time(lent(case), offset(case))),
        12 => run_read_scaled(case),
        14 => run_round(case),
        15 => run_reading(case),
        16 => date_value(calendar::date_of(short(case, 4))),
        17 => run_day_number(case),
        18 => run_is_date(case),
        _ => run_writer(case, kind),
    }
}

// How many numbers of an answer the case has: a writer's room stands where the others would, and a float's bits.
fn values_of(kind: u8) -> usize {
    match kind {
        3 | 4 | 6 | 9 | 10 | 13 | 15 => 1,
        _ => 3,
    }
}

fn with_case<W: Write>(out: &mut W, counts: Counts, case: &[u8]) -> io::Result<Counts> {
    let names = NAMES;
    let kind = byte(case, 0);
    Ok(counted(
        counts,
        kind,
        judged(
            out,
            &names,
            16,
            case,
            48,
            0,
            answered(case),
            values_of(kind),
        )?,
    ))
}

fn run_all<R: Read, W: Write>(input: &mut R, out: &mut W) -> io::Result<Counts> {
    let mut counts = none();
    let most: usize = 100000;
    for _ in 0..most {
        let mut case = [0u8; 96];
        if !read(input, &mut case)? {
            return Ok(counts);
        }
        counts = with_case(out, counts, &case)?;
    }
    Ok(counts)
}

fn main(rt: HostRuntime) -> io::Result<()> {
    let mut input = rt.stdin();
    let mut out = rt.stdout();
    let names = NAMES;
    let counts = run_all(&mut input, &mut out)?;
    print_counts(&mut out, counts, &names, 16)
}
