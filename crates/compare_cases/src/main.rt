// Checks each pair of products of standard input, an original and a cut, and prints the answers. A case is 8 bytes and the two products
// (tools/compare-cases says which and writes them).
#![tactic(auto)]

use calendar::Refusal;
use cases::input::{read, read_part, word};
use cases::print::{number, refusal, say};
use std::io;
use std::io::{Read, Write};

fn print_answer<W: Write>(out: &mut W, answer: Result<Option<usize>, Refusal>) -> io::Result<()> {
    match answer {
        Err(r) => refusal(out, r)?,
        Ok(None) => say(out, b" yes")?,
        Ok(Some(place)) => {
            say(out, b" no")?;
            number(out, place as u64)?;
        }
    }
    say(out, b"\n")
}

fn run_case<R: Read, W: Write>(
    input: &mut R,
    out: &mut W,
    head: &[u8],
    original: &mut [u8],
    cut: &mut [u8],
) -> io::Result<()> {
    let n = read_part(input, original, word(head, 0, 4) as usize)?;
    let m = read_part(input, cut, word(head, 4, 4) as usize)?;
    print_answer(out, compare::cut::check_cut(&original[..n], &cut[..m]))
}

fn run_next<R: Read, W: Write>(input: &mut R, out: &mut W, head: &[u8]) -> io::Result<()> {
    let mut original = [0u8; 8192];
    let mut cut = [0u8; 8192];
    run_case(input, out, head, &mut original, &mut cut)
}

fn main(rt: HostRuntime) -> io::Result<()> {
    let mut input = rt.stdin();
    let mut out = rt.stdout();
    let most: usize = 100000;
    for _ in 0..most {
        let mut head = [0u8; 8];
        if !read(&mut input, &mut head)? {
            return Ok(());
        }
        run_next(&mut input, &mut out, &head)?;
    }
    Ok(())
}
