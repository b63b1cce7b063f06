// Runs the header vectors, pointer records and the follow table on `record`. A case is 96 bytes of standard input (tools/header-cases
// writes them): byte 0 its kind, then what is handed in, and from byte 48 on the answer that it should get. Prints how many cases
// of each kind agreed, and each disagreement whole.
#![tactic(auto)]

use calendar::Refusal;
use cases::answer::{Answer, judged, refused, value, values, written};
use cases::counts::{Counts, counted, none, print_counts};
use cases::input::{byte, fitting, is_same, part, read, word};
use meter::time::Time;
use record::header::Header;
use record::pointer::Pointer;
use std::io;
use std::io::{Read, Write};

// The names of the kinds, 16 bytes each.
const NAMES: [u8; 96] = *b"\
unknown         \
read_header     \
write_header    \
read_pointer    \
write_pointer   \
may_follow      ";

// ---- answers
fn time_value(t: Option<Time>) -> u64 {
    match t {
        None => 0xffff_ffff_ffff,
        Some(t) => (t.day as u64) * 0x1_0000_0000 + (t.milli as u64),
    }
}

fn triple(class: u8, group: u8, subclass: u8) -> u64 {
    (class as u64) * 65536 + (group as u64) * 256 + (subclass as u64)
}

fn header_value(h: Header, e: u64) -> Answer {
    let lead = triple(h.class, h.group, h.subclass);
    values(
        (lead % 0x1_000000) * 256 + (h.version as u64),
        h.size as u64,
        time_value(h.start),
        time_value(h.stop),
        e,
    )
}

fn pointer_value(p: Pointer) -> Answer {
    let target = triple(p.class, p.group, p.subclass) % 0x1_000000;
    header_value(p.header, target * 0x1_0000_0000 + (p.offset as u64))
}

// ---- what is handed in
// The bytes of a reader: their number at 1, themselves from 4 on.
fn lent(case: &[u8]) -> &[u8] {
    part(case, 4, byte(case, 1) as usize)
}

fn time_in(case: &[u8], at: usize) -> Option<Time> {
    if at > 40 {
        return None;
    }
    let day = (word(case, at, 2) % 65536) as u16;
    let milli = (word(case, at + 2, 4) % 0x1_0000_0000) as u32;
    if day == 65535 && milli == 0xffff_ffff {
        return None;
    }
    Some(Time { day, milli })
}

fn header_in(case: &[u8]) -> Header {
    Header {
        class: byte(case, 4),
        group: byte(case, 5),
        subclass: byte(case, 6),
        version: byte(case, 7),
        size: (word(case, 8, 4) % 0x1_0000_0000) as u32,
        start: time_in(case, 12),
        stop: time_in(case, 18),
    }
}

fn pointer_in(case: &[u8]) -> Pointer {
    Pointer {
        header: header_in(case),
        class: byte(case, 24),
        group: byte(case, 25),
        subclass: byte(case, 26),
        offset: (word(case, 27, 4) % 0x1_0000_0000) as u32,
    }
}

// ---- the cases, by their kinds
fn run_read_header(case: &[u8]) -> Answer {
    match record::header::read_header(lent(case), byte(case, 2) as usize) {
        Ok(h) => header_value(h, 0),
        Err(r) => refused(r, true),
    }
}

fn run_read_pointer(case: &[u8]) -> Answer {
    match record::pointer::read_pointer(lent(case), byte(case, 2) as usize) {
        Ok(p) => pointer_value(p),
        Err(r) => refused(r, true),
    }
}

fn run_may_follow(case: &[u8]) -> Answer {
    value(
        u64::from(record::follow::may_follow(byte(case, 4), byte(case, 5))),
        0,
        0,
    )
}

fn write_into(case: &[u8], room: &mut [u8]) -> Result<usize, Refusal> {
    if byte(case, 0) == 2 {
        record::header::write_header(room, header_in(case))
    } else {
        record::pointer::write_pointer(room, pointer_in(case))
    }
}

// The first bytes of the room are lent, as many as the case says; at exit the room is what the case has from byte 64 on.
fn write_in(case: &[u8], room: &mut [u8]) -> Answer {
    let n = fitting(byte(case, 1) as usize, room);
    let w = write_into(case, &mut room[..n]);
    written(w, is_same(room, case, 64))
}

fn run_writer(case: &[u8]) -> Answer {
    let mut room = [0xaau8; 32];
    write_in(case, &mut room)
}

fn answered(case: &[u8]) -> Answer {
    let kind = byte(case, 0);
    match kind {
        1 => run_read_header(case),
        3 => run_read_pointer(case),
        5 => run_may_follow(case),
        _ => run_writer(case),
    }
}

// How many numbers of an answer the case has: a writer's room stands where the others would.
fn values_of(kind: u8) -> usize {
    match kind {
        2 | 4 => 1,
        _ => 5,
    }
}

fn with_case<W: Write>(out: &mut W, counts: Counts, case: &[u8]) -> io::Result<Counts> {
    let names = NAMES;
    let kind = byte(case, 0);
    Ok(counted(
        counts,
        kind,
        judged(
            out,
            &names,
            16,
            case,
            48,
            0,
            answered(case),
            values_of(kind),
        )?,
    ))
}

fn run_all<R: Read, W: Write>(input: &mut R, out: &mut W) -> io::Result<Counts> {
    let mut counts = none();
    let most: usize = 100000;
    for _ in 0..most {
        let mut case = [0u8; 96];
        if !read(input, &mut case)? {
            return Ok(counts);
        }
        counts = with_case(out, counts, &case)?;
    }
    Ok(counts)
}

fn main(rt: HostRuntime) -> io::Result<()> {
    let mut input = rt.stdin();
    let mut out = rt.stdout();
    let names = NAMES;
    let counts = run_all(&mut input, &mut out)?;
    print_counts(&mut out, counts, &names, 16)
}
