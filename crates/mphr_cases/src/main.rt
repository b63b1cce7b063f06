// Runs the line and name vectors, the places of 01's list and the main headers of the judge's products on `mphr`. A case is 216 bytes
// of standard input (tools/line-cases writes them): byte 0 its kind, then what is handed in, from byte 80 on the answer that it should
// get, and from 112 on the room at exit. A header's case is followed by the header, and its prefixes are judged one by one. Prints how
// many cases of each kind agreed, and how many prefixes, and each disagreement whole.
#![tactic(auto)]

use calendar::{Date, Refusal};
use cases::answer::{Answer, judged, refused, value, written};
use cases::counts::{Counts, counted, none, print_counts};
use cases::input::{byte, fitting, is_same, part, read, word};
use meter::general::Moment;
use mphr::layout::Place;
use std::io;
use std::io::{Read, Write};
use text::Kind;

// The names of the kinds, 20 bytes each; the last is for the prefixes of headers.
const NAMES: [u8; 160] = *b"\
unknown             \
write_text_line     \
write_number_line   \
write_time_line     \
field_named         \
field_place         \
header_fault        \
prefixes            ";

// ---- what is handed in
// The text or name: its length at 2, its bytes from 8 on.
fn lent(case: &[u8]) -> &[u8] {
    part(case, 8, byte(case, 2) as usize)
}

fn number_in(case: &[u8]) -> Option<i64> {
    if byte(case, 3) == 1 {
        return None;
    }
    meter::integer::read_signed(case, 8, 8).ok()
}

fn time_in(case: &[u8]) -> Option<Moment> {
    if byte(case, 3) == 1 {
        return None;
    }
    let date = Date {
        year: (word(case, 8, 2) % 65536) as u16,
        month: byte(case, 10),
        day: byte(case, 11),
    };
    Some(Moment {
        date,
        hour: byte(case, 12),
        minute: byte(case, 13),
        second: byte(case, 14),
        milli: (word(case, 15, 2) % 65536) as u16,
    })
}

// ---- the cases, by their kinds
fn write_into(case: &[u8], room: &mut [u8]) -> Result<usize, Refusal> {
    let k = word(case, 4, 4) as usize;
    let kind = byte(case, 0);
    match kind {
        1 => mphr::lines::write_text_line(room, k, lent(case)),
        2 => mphr::lines::write_number_line(room, k, number_in(case)),
        _ => mphr::lines::write_time_line(room, k, time_in(case)),
    }
}

// The first bytes of the room are lent, as many as the case says; at exit the room is what the case has from byte 112 on.
fn write_in(case: &[u8], room: &mut [u8]) -> Answer {
    let n = fitting(byte(case, 1) as usize, room);
    let w = write_into(case, &mut room[..n]);
    written(w, is_same(room, case, 112))
}

fn run_writer(case: &[u8]) -> Answer {
    let mut room = [0xaau8; 104];
    write_in(case, &mut room)
}

fn place_value(p: Place) -> Answer {
    let kind: u64 = match p.kind {
        Kind::Text => 0,
        Kind::Unsigned => 1,
        Kind::Count => 2,
        Kind::Signed => 3,
        Kind::Time => 4,
        Kind::LongTime => 5,
    };
    value(p.start as u64, p.width as u64, kind)
}

fn answered(case: &[u8]) -> Answer {
    let kind = byte(case, 0);
    match kind {
        4 => match mphr::names::field_named(lent(case)) {
            Ok(k) => value(k as u64, 0, 0),
            Err(r) => refused(r, true),
        },
        5 => match mphr::layout::field_place(word(case, 4, 4) as usize) {
            Ok(p) => place_value(p),
            Err(r) => refused(r, true),
        },
        _ => run_writer(case),
    }
}

// The answer is the one that stands in the case from `at` on; n is the length of a header's prefix, else 0.
fn agreed<W: Write>(out: &mut W, case: &[u8], at: usize, x: Answer, n: usize) -> io::Result<bool> {
    let names = NAMES;
    judged(out, &names, 20, case, at, n, x, 3)
}

// ---- headers: the refusal at 80 is due from the arrival length at 4 on, and before it the answer at 112
fn prefix_agrees<W: Write>(out: &mut W, case: &[u8], header: &[u8], n: usize) -> io::Result<bool> {
    let x = match mphr::faults::header_fault(part(header, 0, n)) {
        Ok(()) => value(0, 0, 0),
        Err(r) => refused(r, true),
    };
    if (n as u64) < word(case, 4, 4) {
        return agreed(out, case, 112, x, n);
    }
    agreed(out, case, 80, x, n)
}

// Every prefix of the header, the empty one and the whole one too.
fn with_prefixes<W: Write>(
    out: &mut W,
    counts: Counts,
    case: &[u8],
    header: &[u8],
) -> io::Result<Counts> {
    let mut next = counts;
    let most = word(case, 8, 4);
    for n in 0..3308 {
        if most < n as u64 {
            return Ok(next);
        }
        next = counted(next, 7, prefix_agrees(out, case, header, n)?);
    }
    Ok(next)
}

fn with_header<R: Read, W: Write>(
    input: &mut R,
    out: &mut W,
    counts: Counts,
    case: &[u8],
) -> io::Result<Counts> {
    let mut header = [0u8; 3307];
    if !read(input, &mut header)? {
        return Ok(counted(counts, 6, false));
    }
    let before = counts.disagreed[7];
    let next = with_prefixes(out, counts, case, &header)?;
    let ok = next.disagreed[7] == before;
    Ok(counted(next, 6, ok))
}

fn with_case<R: Read, W: Write>(
    input: &mut R,
    out: &mut W,
    counts: Counts,
    case: &[u8],
) -> io::Result<Counts> {
    let kind = byte(case, 0);
    if kind == 6 {
        return with_header(input, out, counts, case);
    }
    Ok(counted(counts, kind, agreed(out, case, 80, answered(case), 0)?))
}

fn run_all<R: Read, W: Write>(input: &mut R, out: &mut W) -> io::Result<Counts> {
    let mut counts = none();
    let most: usize = 100000;
    for _ in 0..most {
        let mut case = [0u8; 216];
        if !read(input, &mut case)? {
            return Ok(counts);
        }
        counts = with_case(input, out, counts, &case)?;
    }
    Ok(counts)
}

fn main(rt: HostRuntime) -> io::Result<()> {
    let mut input = rt.stdin();
    let mut out = rt.stdout();
    let names = NAMES;
    let counts = run_all(&mut input, &mut out)?;
    print_counts(&mut out, counts, &names, 20)
}
