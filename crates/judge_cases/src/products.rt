// Products judged: every prefix of an arrival and the verdict of the finished product, printed as the vectors' expected text is; and the
// rows of the lister, also by the Level 0 profile, for rooms that are too small, just large enough, and larger.
use crate::answers;
use calendar::Refusal;
use cases::input::{part, word};
use cases::print;
use cases::print::say;
use finish::{rows as list_rows, verdict};
use judge::arrival::{Arrival, judge_arrival};
use level0::judge_level0;
use std::io;
use std::io::Write;

// How many places there are for rows, and what they hold before the judge is asked: no product has a record there.
const PLACES: usize = 1024;

const UNTOUCHED: u32 = 0xaaaa_aaaa;

fn same(a: Arrival, b: Arrival) -> bool {
    match (a, b) {
        (Arrival::Waiting { count, end }, Arrival::Waiting { count: c, end: e }) => count == c
            && end == e,
        (Arrival::Refused(r), Arrival::Refused(t)) => r.number == t.number && r.place == t.place,
        _ => false,
    }
}

fn print_at<W: Write>(out: &mut W, n: usize, judged: Arrival) -> io::Result<()> {
    say(out, b"at")?;
    print::number(out, n as u64)?;
    answers::arrival(out, judged)
}

// The answer to the empty arrival, and each that differs from the answer at one byte less.
fn print_arrivals<W: Write>(out: &mut W, bytes: &[u8]) -> io::Result<()> {
    let mut last = judge_arrival(part(bytes, 0, 0));
    print_at(out, 0, last)?;
    for n in 1..=bytes.len() {
        let next = judge_arrival(part(bytes, 0, n));
        if !same(last, next) {
            print_at(out, n, next)?;
        }
        last = next;
    }
    Ok(())
}

fn list_into(bytes: &[u8], rows: &mut [[u32; 7]], level0: bool) -> Result<usize, Refusal> {
    if level0 {
        return judge_level0(bytes, rows);
    }
    list_rows(bytes, rows)
}

// The lister, lent the first places; where there are fewer than `room`, a refusal with 0, which no judge gives.
fn judge_into(
    bytes: &[u8],
    rows: &mut [[u32; 7]],
    room: usize,
    level0: bool,
) -> Result<usize, Refusal> {
    if room <= rows.len() {
        return list_into(bytes, &mut rows[..room], level0);
    }
    Err(Refusal {
        number: 0,
        place: room,
    })
}

pub(crate) fn print_product<W: Write>(out: &mut W, number: u64, bytes: &[u8]) -> io::Result<()> {
    say(out, b"product")?;
    print::number(out, number)?;
    print::number(out, bytes.len() as u64)?;
    say(out, b"\nfinished")?;
    answers::finished(out, verdict(bytes))?;
    print_arrivals(out, bytes)
}

// The row at place i is the one that is due, of 28 bytes each; past these it is untouched.
fn is_row(row: [u32; 7], due: &[u8], i: usize) -> bool {
    for (j, number) in row.iter().enumerate() {
        let x = u64::from(*number);
        if i < due.len() / 28 {
            if x != word(due, 28 * i + 4 * j, 4) {
                return false;
            }
        } else if x != u64::from(UNTOUCHED) {
            return false;
        }
    }
    true
}

// So at each place, those with them that are not lent.
fn holds(rows: &[[u32; 7]], due: &[u8]) -> bool {
    rows.iter().enumerate().all(|(i, row)| is_row(*row, due, i))
}

// The answer for this room, and `lost` where a place does not hold what is due.
fn print_room<W: Write>(
    out: &mut W,
    number: u64,
    bytes: &[u8],
    due: &[u8],
    room: usize,
    level0: bool,
) -> io::Result<()> {
    if level0 {
        say(out, b"level0")?;
    } else {
        say(out, b"rows")?;
    }
    print::number(out, number)?;
    print::number(out, room as u64)?;
    let mut rows = [[UNTOUCHED; 7]; PLACES];
    let judged = judge_into(bytes, &mut rows, room, level0);
    answers::finished(out, judged)?;
    // No row is due where a product is refused.
    if !holds(&rows, if judged.is_ok() { due } else { &[] }) {
        say(out, b"lost\n")?;
    }
    Ok(())
}

// The rows of a product, lent no room, one place less than it has records, as many, one more and four more; `due` has 28 bytes a row.
pub(crate) fn print_rows<W: Write>(
    out: &mut W,
    number: u64,
    bytes: &[u8],
    due: &[u8],
    level0: bool,
) -> io::Result<()> {
    let count = due.len() / 28;
    print_room(out, number, bytes, due, 0, level0)?;
    if 0 < count {
        print_room(out, number, bytes, due, count - 1, level0)?;
    }
    print_room(out, number, bytes, due, count, level0)?;
    print_room(out, number, bytes, due, count + 1, level0)?;
    print_room(out, number, bytes, due, count + 4, level0)
}
