// Runs the orders of standard input on two reports and prints the answers. An order is 9 bytes and data (tools/month-cases says which and
// writes them): the first byte says what to do, the next 4 how many times, the last 4 how many bytes of data follow.
#![tactic(auto)]

use calendar::Refusal;
use cases::input::{byte, read, read_part, word};
use cases::print::{number, refusal, say};
use std::io::{Read, Write};
use std::{io, mem};

fn print_own<W: Write>(out: &mut W, r: Refusal) -> io::Result<()> {
    say(out, b" added")?;
    number(out, u64::from(r.number))?;
    number(out, r.place as u64)
}

fn print_added<W: Write>(out: &mut W, answer: Result<Option<Refusal>, Refusal>) -> io::Result<()> {
    match answer {
        Ok(None) => say(out, b" added 0 0")?,
        Ok(Some(r)) => print_own(out, r)?,
        Err(r) => refusal(out, r)?,
    }
    say(out, b"\n")
}

fn print_merged<W: Write>(out: &mut W, answer: Result<(), Refusal>) -> io::Result<()> {
    match answer {
        Ok(()) => say(out, b" merged")?,
        Err(r) => refusal(out, r)?,
    }
    say(out, b"\n")
}

fn print_report<W: Write>(out: &mut W, report: &[u64; 38]) -> io::Result<()> {
    for n in report {
        number(out, *n)?;
    }
    say(out, b"\n")
}

// A report of 38 numbers of 8 bytes each.
fn set_report(report: &mut [u64; 38], data: &[u8]) {
    for (i, n) in report.iter_mut().enumerate() {
        *n = word(data, i * 8, 8);
    }
}

// The product is lent so many times; the last answer comes back.
fn add_times(
    report: &mut [u64; 38],
    product: &[u8],
    times: u64,
) -> Result<Option<Refusal>, Refusal> {
    let mut answer = Ok(None);
    for _ in 0..times {
        answer = month::report::add(report, product);
    }
    answer
}

// An order is matched where its byte is read: an enum of the orders would name each of them twice, here and where it is made of the byte.
fn run_order<W: Write>(
    out: &mut W,
    order: u8,
    times: u64,
    data: &[u8],
    report: &mut [u64; 38],
    other: &mut [u64; 38],
) -> io::Result<()> {
    match order {
        0 => set_report(report, data),
        1 => {
            let _ = add_times(report, data, times);
        }
        2 => print_added(out, add_times(report, data, times))?,
        3 => print_report(out, report)?,
        4 => mem::swap(report, other),
        _ => print_merged(out, month::report::merge(report, other))?,
    }
    Ok(())
}

fn run_next<R: Read, W: Write>(
    input: &mut R,
    out: &mut W,
    head: &[u8],
    report: &mut [u64; 38],
    other: &mut [u64; 38],
) -> io::Result<()> {
    let mut data = [0u8; 8192];
    let n = read_part(input, &mut data, word(head, 5, 4) as usize)?;
    run_order(
        out,
        byte(head, 0),
        word(head, 1, 4),
        &data[..n],
        report,
        other,
    )
}

fn main(rt: HostRuntime) -> io::Result<()> {
    let mut input = rt.stdin();
    let mut out = rt.stdout();
    let mut report = [0u64; 38];
    let mut other = [0u64; 38];
    let most: usize = 100000;
    for _ in 0..most {
        let mut head = [0u8; 9];
        if !read(&mut input, &mut head)? {
            return Ok(());
        }
        run_next(&mut input, &mut out, &head, &mut report, &mut other)?;
    }
    Ok(())
}
