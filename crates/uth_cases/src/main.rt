// Reads each humidity file of standard input into rooms of the sizes that are asked, and prints the answers and what the rooms then hold;
// then some of its blocks, each by itself. A case is 12 bytes, the file, and the sizes of the rooms (tools/uth-cases says which and writes
// them).
#![tactic(auto)]

ghost use Rattle.std.specs.Prelude.{◌≤◌};

use calendar::Refusal;
use cases::input::{read, read_part, word};
use cases::print::{float, number, refusal, say};
use std::io;
use std::io::{Read, Write};
use uth::blocks::Block;

fn print_float<W: Write>(out: &mut W, x: f32) -> io::Result<()> {
    if x == x {
        float(out, x as f64)
    } else {
        say(out, b" nan")
    }
}

fn print_count<W: Write>(out: &mut W, n: u32) -> io::Result<()> {
    number(out, n as u64)
}

fn print_answer<W: Write>(out: &mut W, answer: Result<usize, Refusal>) -> io::Result<()> {
    match answer {
        Ok(n) => {
            say(out, b" blocks")?;
            number(out, n as u64)?;
        }
        Err(r) => refusal(out, r)?,
    }
    say(out, b"\n")
}

fn print_rows<W: Write>(out: &mut W, rows: &[[u32; 4]]) -> io::Result<()> {
    for row in rows {
        print_count(out, row[0])?;
        print_count(out, row[1])?;
        print_count(out, row[2])?;
        print_count(out, row[3])?;
        say(out, b"\n")?;
    }
    Ok(())
}

fn print_pairs<W: Write>(out: &mut W, pairs: &[[f32; 2]]) -> io::Result<()> {
    for pair in pairs {
        print_float(out, pair[0])?;
        print_float(out, pair[1])?;
        say(out, b"\n")?;
    }
    Ok(())
}

fn read_into<W: Write>(
    out: &mut W,
    bytes: &[u8],
    rows: &mut [[u32; 4]],
    pairs: &mut [[f32; 2]],
) -> io::Result<()> {
    print_answer(out, uth::blocks::read_uth(bytes, rows, pairs))?;
    print_rows(out, rows)?;
    print_pairs(out, pairs)
}

// At most 32 places.
fn places(n: u64) -> usize
    ensures { result ≤ 32 }
{
    n.min(32) as usize
}

// The next rooms.
fn run_room<R: Read, W: Write>(input: &mut R, out: &mut W, bytes: &[u8]) -> io::Result<()> {
    let mut sizes = [0u8; 8];
    if !read(input, &mut sizes)? {
        return Ok(());
    }
    let mut rows = [[7u32; 4]; 32];
    let mut pairs = [[0.5f32; 2]; 32];
    let r = places(word(&sizes, 0, 4));
    let p = places(word(&sizes, 4, 4));
    read_into(out, bytes, &mut rows[..r], &mut pairs[..p])
}

fn run_rooms<R: Read, W: Write>(
    input: &mut R,
    out: &mut W,
    bytes: &[u8],
    rooms: u64,
) -> io::Result<()> {
    for _ in 0..rooms {
        run_room(input, out, bytes)?;
    }
    Ok(())
}

fn print_value<W: Write>(out: &mut W, v: Option<f32>) -> io::Result<()> {
    match v {
        None => say(out, b" missing"),
        Some(x) => print_float(out, x),
    }
}

fn print_block<W: Write>(out: &mut W, b: Block) -> io::Result<()> {
    print_count(out, b.line)?;
    print_count(out, b.column)?;
    print_value(out, b.uth)?;
    print_value(out, b.csr)
}

fn ask<W: Write>(out: &mut W, bytes: &[u8], k: usize) -> io::Result<()> {
    match uth::blocks::block_at(bytes, k) {
        Ok(b) => print_block(out, b)?,
        Err(r) => refusal(out, r)?,
    }
    say(out, b"\n")
}

fn ask_blocks<W: Write>(out: &mut W, bytes: &[u8], count: usize) -> io::Result<()> {
    for k in 0..count {
        ask(out, bytes, k)?;
    }
    Ok(())
}

fn run_file<R: Read, W: Write>(
    input: &mut R,
    out: &mut W,
    head: &[u8],
    bytes: &[u8],
) -> io::Result<()> {
    run_rooms(input, out, bytes, word(head, 4, 4))?;
    ask_blocks(out, bytes, word(head, 8, 4) as usize)
}

fn run_next<R: Read, W: Write>(input: &mut R, out: &mut W, head: &[u8]) -> io::Result<()> {
    let mut bytes = [0u8; 4096];
    let n = read_part(input, &mut bytes, word(head, 0, 4) as usize)?;
    run_file(input, out, head, &bytes[..n])
}

fn main(rt: HostRuntime) -> io::Result<()> {
    let mut input = rt.stdin();
    let mut out = rt.stdout();
    let most: usize = 100000;
    for _ in 0..most {
        let mut head = [0u8; 12];
        if !read(&mut input, &mut head)? {
            return Ok(());
        }
        run_next(&mut input, &mut out, &head)?;
    }
    Ok(())
}
