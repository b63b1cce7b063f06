// Lists each product of standard input into a room of the size that is asked, and prints the text, or the refusal's line, which is
// written into the same room. A case is eight bytes, the product's length and the room's, and then the product (tools/list-cases
// writes them).
#![tactic(auto)]

use calendar::Refusal;
use cases::input::{fitting, part, read, read_part, word};
use cases::print::{number, say};
use std::io;
use std::io::{Read, Write};

const FILL: u8 = 0xaa;

// The room from n on is as it came.
fn is_kept(room: &[u8], n: usize) -> bool {
    room.iter().skip(n).all(|b| *b == FILL)
}

// The n bytes at the room's start, where the others are kept.
fn print_part<W: Write>(out: &mut W, room: &[u8], n: usize) -> io::Result<()> {
    if n > room.len() {
        say(out, b"beyond the room\n")?;
    }
    if !is_kept(room, n) {
        say(out, b"lost\n")?;
    }
    say(out, part(room, 0, n))
}

fn print_refusal<W: Write>(out: &mut W, r: Refusal, room: &mut [u8]) -> io::Result<()> {
    if !is_kept(room, 0) {
        say(out, b"lost\n")?;
    }
    match listing::refusal_line(r, room) {
        Ok(n) => print_part(out, room, n),
        Err(q) => {
            say(out, b"no room for a line:")?;
            number(out, q.place as u64)?;
            say(out, b"\n")?;
            print_part(out, room, 0)
        }
    }
}

fn list_into<W: Write>(out: &mut W, bytes: &[u8], room: &mut [u8]) -> io::Result<()> {
    match listing::list_product(bytes, room) {
        Ok(n) => print_part(out, room, n),
        Err(r) => print_refusal(out, r, room),
    }
}

fn run_case<R: Read, W: Write>(
    input: &mut R,
    out: &mut W,
    head: &[u8],
    bytes: &mut [u8],
    room: &mut [u8],
) -> io::Result<()> {
    let n = read_part(input, bytes, word(head, 0, 4) as usize)?;
    let m = fitting(word(head, 4, 4) as usize, room);
    list_into(out, &bytes[..n], &mut room[..m])
}

fn run_in_rooms<R: Read, W: Write>(input: &mut R, out: &mut W, head: &[u8]) -> io::Result<()> {
    let mut bytes = [0u8; 65537];
    let mut room = [FILL; 131072];
    run_case(input, out, head, &mut bytes, &mut room)
}

fn main(rt: HostRuntime) -> io::Result<()> {
    let mut input = rt.stdin();
    let mut out = rt.stdout();
    let most: usize = 100000;
    for _ in 0..most {
        let mut head = [0u8; 8];
        if !read(&mut input, &mut head)? {
            return Ok(());
        }
        run_in_rooms(&mut input, &mut out, &head)?;
    }
    Ok(())
}
