// Feeds each product of standard input to a watch, part by part, and prints what it answers after each part. A case is 4 bytes, how
// many parts there are, and then the parts, each after the 4 bytes of its length (tools/watch-cases writes them).
#![tactic(auto)]

use cases::input::{read, read_part, word};
use cases::print::{number, refusal, say};
use judge::arrival::Arrival;
use std::io;
use std::io::{Read, Write};
use watch::Watch;

fn print_answer<W: Write>(out: &mut W, answer: Arrival) -> io::Result<()> {
    match answer {
        Arrival::Waiting { count, end } => {
            say(out, b" waiting")?;
            number(out, count as u64)?;
            number(out, end as u64)?;
        }
        Arrival::Refused(r) => refusal(out, r)?,
    }
    say(out, b"\n")
}

// The watch after the next part.
fn fed<R: Read, W: Write>(
    input: &mut R,
    out: &mut W,
    w: Watch,
    bytes: &mut [u8],
) -> io::Result<Watch> {
    let mut head = [0u8; 4];
    if !read(input, &mut head)? {
        return Ok(w);
    }
    let n = read_part(input, bytes, word(&head, 0, 4) as usize)?;
    let f = watch::step(w, &bytes[..n]);
    print_answer(out, f.answer)?;
    Ok(f.watch)
}

fn run_case<R: Read, W: Write>(input: &mut R, out: &mut W, parts: u64) -> io::Result<()> {
    let mut w = watch::new();
    let mut bytes = [0u8; 65536];
    for _ in 0..parts {
        w = fed(input, out, w, &mut bytes)?;
    }
    Ok(())
}

fn run_next<R: Read, W: Write>(input: &mut R, out: &mut W, k: u64, head: &[u8]) -> io::Result<()> {
    say(out, b"case")?;
    number(out, k)?;
    say(out, b"\n")?;
    run_case(input, out, word(head, 0, 4))
}

fn main(rt: HostRuntime) -> io::Result<()> {
    let mut input = rt.stdin();
    let mut out = rt.stdout();
    let most: u64 = 100000;
    for k in 0..most {
        let mut head = [0u8; 4];
        if !read(&mut input, &mut head)? {
            return Ok(());
        }
        run_next(&mut input, &mut out, k, &head)?;
    }
    Ok(())
}
