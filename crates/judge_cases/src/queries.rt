// Queries of products, whole or still arriving: records by their numbers, every field by each of the four field queries, so that those of
// another kind are refused too, and the ground points.
use crate::answers;
use calendar::Refusal;
use cases::print;
use cases::print::say;
use meter::general::Moment;
use query::GroundPoint;
use record::header::Header;
use std::io;
use std::io::Write;

// No record and no field has this number.
const LARGEST: usize = 0xffff_ffff_ffff_ffff;

fn print_header<W: Write>(out: &mut W, start: usize, h: Header) -> io::Result<()> {
    print::number(out, start as u64)?;
    print::number(out, h.class as u64)?;
    print::number(out, h.group as u64)?;
    print::number(out, h.subclass as u64)?;
    print::number(out, h.version as u64)?;
    print::number(out, h.size as u64)
}

fn print_record<W: Write>(out: &mut W, bytes: &[u8], k: usize) -> io::Result<()> {
    say(out, b"record")?;
    print::number(out, k as u64)?;
    match query::record_at(bytes, k) {
        Ok(record) => print_header(out, record.start, record.header)?,
        Err(r) => print::refusal(out, r)?,
    }
    say(out, b"\n")
}

// The records below `asked`.
fn print_records<W: Write>(out: &mut W, bytes: &[u8], asked: usize) -> io::Result<()> {
    for k in 0..asked {
        print_record(out, bytes, k)?;
    }
    print_record(out, bytes, LARGEST)
}

fn print_number_field<W: Write>(out: &mut W, bytes: &[u8], k: usize) -> io::Result<()> {
    say(out, b" number")?;
    match query::number_field(bytes, k) {
        Ok(n) => answers::integer(out, n),
        Err(r) => print::refusal(out, r),
    }
}

fn print_time<W: Write>(out: &mut W, answer: Result<Option<Moment>, Refusal>) -> io::Result<()> {
    match answer {
        Ok(t) => answers::time(out, t),
        Err(r) => print::refusal(out, r),
    }
}

fn print_text_field<W: Write>(out: &mut W, bytes: &[u8], k: usize) -> io::Result<()> {
    say(out, b" text")?;
    match query::text_field(bytes, k) {
        Ok(part) => {
            print::number(out, part.start as u64)?;
            print::number(out, part.width as u64)
        }
        Err(r) => print::refusal(out, r),
    }
}

fn print_field<W: Write>(out: &mut W, bytes: &[u8], k: usize) -> io::Result<()> {
    say(out, b"field")?;
    print::number(out, k as u64)?;
    print_number_field(out, bytes, k)?;
    say(out, b" time")?;
    print_time(out, query::time_field(bytes, k))?;
    say(out, b" long")?;
    print_time(out, query::long_time_field(bytes, k))?;
    print_text_field(out, bytes, k)?;
    say(out, b"\n")
}

// The 72 fields and the first number that none has.
fn print_fields<W: Write>(out: &mut W, bytes: &[u8]) -> io::Result<()> {
    for k in 0..73 {
        print_field(out, bytes, k)?;
    }
    print_field(out, bytes, LARGEST)
}

pub(crate) fn print_queries<W: Write>(
    out: &mut W,
    number: u64,
    bytes: &[u8],
    asked: usize,
) -> io::Result<()> {
    say(out, b"queries")?;
    print::number(out, number)?;
    print::number(out, bytes.len() as u64)?;
    say(out, b"\n")?;
    print_records(out, bytes, asked)?;
    print_fields(out, bytes)
}

fn print_answer<W: Write>(
    out: &mut W,
    answer: Result<Option<GroundPoint>, Refusal>,
) -> io::Result<()> {
    match answer {
        Ok(Some(p)) => {
            say(out, b" point")?;
            print::float(out, p.latitude)?;
            print::float(out, p.longitude)?;
        }
        Ok(None) => say(out, b" missing")?,
        Err(r) => print::refusal(out, r)?,
    }
    say(out, b"\n")
}

// The points of the product's start and of its end.
pub(crate) fn print_points<W: Write>(out: &mut W, number: u64, bytes: &[u8]) -> io::Result<()> {
    say(out, b"start")?;
    print::number(out, number)?;
    print_answer(out, query::ground_point(bytes, false))?;
    say(out, b"end")?;
    print::number(out, number)?;
    print_answer(out, query::ground_point(bytes, true))
}
