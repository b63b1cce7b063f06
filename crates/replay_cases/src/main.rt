// Replays each record of standard input with its product, or records a product's arrival in parts of given lengths into rooms of the sizes
// that are asked, and prints the answers; and `lost` where a room does not hold what the case asks for. A case is 13 bytes, the product,
// the record or the lengths, and the rooms (tools/replay-cases says which and writes them).
#![tactic(auto)]

use calendar::Refusal;
use cases::input::{byte, fitting, is_same, read, read_part, word};
use cases::print::{number, refusal, say};
use std::io;
use std::io::{Read, Write};

const FILL: u8 = 0xaa;

fn print_replayed<W: Write>(out: &mut W, answer: Result<Option<usize>, Refusal>) -> io::Result<()> {
    match answer {
        Err(r) => refusal(out, r)?,
        Ok(None) => say(out, b" none")?,
        Ok(Some(part)) => {
            say(out, b" part")?;
            number(out, part as u64)?;
        }
    }
    say(out, b"\n")
}

fn print_written<W: Write>(out: &mut W, answer: Result<usize, Refusal>) -> io::Result<()> {
    match answer {
        Ok(n) => {
            say(out, b" record")?;
            number(out, n as u64)
        }
        Err(r) => refusal(out, r),
    }
}

fn write_into<W: Write>(
    out: &mut W,
    lengths: &[u32],
    product: &[u8],
    room: &mut [u8],
    due: &[u8],
) -> io::Result<()> {
    print_written(out, replay::write::write_record(lengths, product, room))?;
    if !is_same(room, due, 0) {
        say(out, b" lost")?;
    }
    say(out, b"\n")
}

// The next room: its size, and what it is to hold afterwards.
fn lend<R: Read, W: Write>(
    input: &mut R,
    out: &mut W,
    lengths: &[u32],
    product: &[u8],
    room: &mut [u8],
    due: &mut [u8],
) -> io::Result<()> {
    let mut size = [0u8; 4];
    if !read(input, &mut size)? {
        return Ok(());
    }
    let m = read_part(input, due, word(&size, 0, 4) as usize)?;
    let n = fitting(m, room);
    write_into(out, lengths, product, &mut room[..n], due)
}

fn run_room<R: Read, W: Write>(
    input: &mut R,
    out: &mut W,
    lengths: &[u32],
    product: &[u8],
) -> io::Result<()> {
    let mut room = [FILL; 4096];
    let mut due = [0u8; 4096];
    lend(input, out, lengths, product, &mut room, &mut due)
}

// The numbers of 4 bytes, one to a place, and zeros after them.
fn fill(lengths: &mut [u32], given: &[u8]) {
    for (i, length) in lengths.iter_mut().enumerate() {
        *length = (word(given, 4 * i, 4) % 0x1_0000_0000) as u32;
    }
}

fn run_rooms<R: Read, W: Write>(
    input: &mut R,
    out: &mut W,
    rooms: u64,
    lengths: &[u32],
    product: &[u8],
) -> io::Result<()> {
    for _ in 0..rooms {
        run_room(input, out, lengths, product)?;
    }
    Ok(())
}

fn record_parts<R: Read, W: Write>(
    input: &mut R,
    out: &mut W,
    rooms: u64,
    product: &[u8],
    given: &[u8],
    lengths: &mut [u32],
) -> io::Result<()> {
    fill(lengths, given);
    let n = given.len() / 4;
    if n <= lengths.len() {
        run_rooms(input, out, rooms, &lengths[..n], product)?;
    }
    Ok(())
}

fn record_case<R: Read, W: Write>(
    input: &mut R,
    out: &mut W,
    rooms: u64,
    product: &[u8],
    given: &[u8],
) -> io::Result<()> {
    let mut lengths = [0u32; 1024];
    record_parts(input, out, rooms, product, given, &mut lengths)
}

fn run_case<R: Read, W: Write>(
    input: &mut R,
    out: &mut W,
    head: &[u8],
    product: &mut [u8],
    given: &mut [u8],
) -> io::Result<()> {
    let n = read_part(input, product, word(head, 0, 4) as usize)?;
    let m = read_part(input, given, word(head, 4, 4) as usize)?;
    if byte(head, 12) == 0 {
        print_replayed(out, replay::run::replay(&given[..m], &product[..n]))
    } else {
        record_case(input, out, word(head, 8, 4), &product[..n], &given[..m])
    }
}

fn run_next<R: Read, W: Write>(input: &mut R, out: &mut W, head: &[u8]) -> io::Result<()> {
    let mut product = [0u8; 8192];
    let mut given = [0u8; 4096];
    run_case(input, out, head, &mut product, &mut given)
}

fn main(rt: HostRuntime) -> io::Result<()> {
    let mut input = rt.stdin();
    let mut out = rt.stdout();
    let most: usize = 100000;
    for _ in 0..most {
        let mut head = [0u8; 13];
        if !read(&mut input, &mut head)? {
            return Ok(());
        }
        run_next(&mut input, &mut out, &head)?;
    }
    Ok(())
}
