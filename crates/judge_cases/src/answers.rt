// How answers are printed. Whoever prints the last of a line ends the line.
use calendar::Refusal;
use cases::print::{number, refusal, say, signed};
use judge::arrival::Arrival;
use meter::general::Moment;
use std::io;
use std::io::Write;

pub(crate) fn arrival<W: Write>(out: &mut W, judged: Arrival) -> io::Result<()> {
    match judged {
        Arrival::Waiting { count, end } => {
            say(out, b" waiting")?;
            number(out, count as u64)?;
            number(out, end as u64)?;
        }
        Arrival::Refused(r) => refusal(out, r)?,
    }
    say(out, b"\n")
}

pub(crate) fn finished<W: Write>(out: &mut W, judged: Result<usize, Refusal>) -> io::Result<()> {
    match judged {
        Ok(count) => {
            say(out, b" accepted")?;
            number(out, count as u64)?;
        }
        Err(r) => refusal(out, r)?,
    }
    say(out, b"\n")
}

pub(crate) fn integer<W: Write>(out: &mut W, n: Option<i64>) -> io::Result<()> {
    match n {
        None => say(out, b" undefined"),
        Some(v) => signed(out, v),
    }
}

fn moment<W: Write>(out: &mut W, t: Moment) -> io::Result<()> {
    number(out, t.date.year as u64)?;
    number(out, t.date.month as u64)?;
    number(out, t.date.day as u64)?;
    number(out, t.hour as u64)?;
    number(out, t.minute as u64)?;
    number(out, t.second as u64)?;
    number(out, t.milli as u64)
}

pub(crate) fn time<W: Write>(out: &mut W, x: Option<Moment>) -> io::Result<()> {
    match x {
        None => say(out, b" undefined"),
        Some(t) => moment(out, t),
    }
}
