// Cuts each product of standard input to its window, or joins it with a second one, into rooms of the sizes that are asked, and prints the
// answers; and `lost` where a room does not hold what the case asks for. A case is 31 bytes, the product, the second one, what is to be
// written and the rooms' sizes (tools/rewrite-cases says which and writes them). Of a pass all granules are joined, from the first to the
// last.
#![tactic(auto)]

use calendar::Refusal;
use cases::input::{byte, fitting, part, read, read_part, word};
use cases::print::{number, refusal, say};
use meter::time::Time;
use std::io;
use std::io::{Read, Write};

const FILL: u8 = 0xaa;

const ROOM: usize = 8192;

// What is asked: a cut, a join, a join of two granules, or that of all granules of a pass.
#[derive(Clone, Copy)]
enum Asked {
    Cut,
    Join,
    JoinPass,
    Pass,
}

impl From<u8> for Asked {
    fn from(code: u8) -> Asked {
        match code {
            0 => Asked::Cut,
            1 => Asked::Join,
            3 => Asked::Pass,
            _ => Asked::JoinPass,
        }
    }
}

// The room starts with `text`, and the rest is as it came.
fn holds(room: &[u8], text: &[u8]) -> bool {
    room.starts_with(text) && room[text.len()..].iter().all(|b| *b == FILL)
}

fn time_of(defined: u8, day: u64, milli: u64) -> Option<Time> {
    (defined != 0).then(|| Time {
        day: (day % 65536) as u16,
        milli: (milli % 0x1_0000_0000) as u32,
    })
}

// How many bytes are written.
fn print_answer<W: Write>(out: &mut W, answer: Result<usize, Refusal>) -> io::Result<usize> {
    match answer {
        Ok(n) => {
            say(out, b" written")?;
            number(out, n as u64)?;
            Ok(n)
        }
        Err(r) => {
            refusal(out, r)?;
            Ok(0)
        }
    }
}

fn cut_of(head: &[u8], bytes: &[u8], room: &mut [u8]) -> Result<usize, Refusal> {
    let first = time_of(byte(head, 17), word(head, 18, 2), word(head, 20, 4));
    let last = time_of(byte(head, 24), word(head, 25, 2), word(head, 27, 4));
    rewrite::cut::cut(bytes, first, last, room)
}

fn written_of(head: &[u8], bytes: &[u8], second: &[u8], room: &mut [u8]) -> Result<usize, Refusal> {
    match Asked::from(byte(head, 16)) {
        Asked::Cut => cut_of(head, bytes, room),
        Asked::Join => rewrite::join::join(bytes, second, room),
        Asked::JoinPass | Asked::Pass => rewrite::join::join_pass(bytes, second, room),
    }
}

fn write_into<W: Write>(
    out: &mut W,
    head: &[u8],
    bytes: &[u8],
    second: &[u8],
    text: &[u8],
    room: &mut [u8],
) -> io::Result<()> {
    let n = print_answer(out, written_of(head, bytes, second, room))?;
    if !holds(room, part(text, 0, n)) {
        say(out, b" lost")?;
    }
    say(out, b"\n")
}

// The next room.
fn run_room<R: Read, W: Write>(
    input: &mut R,
    out: &mut W,
    head: &[u8],
    bytes: &[u8],
    second: &[u8],
    text: &[u8],
) -> io::Result<()> {
    let mut size = [0u8; 4];
    if !read(input, &mut size)? {
        return Ok(());
    }
    let mut room = [FILL; ROOM];
    let m = fitting(word(&size, 0, 4) as usize, &room);
    write_into(out, head, bytes, second, text, &mut room[..m])
}

fn run_rooms<R: Read, W: Write>(
    input: &mut R,
    out: &mut W,
    head: &[u8],
    bytes: &[u8],
    second: &[u8],
    text: &[u8],
) -> io::Result<()> {
    for _ in 0..word(head, 12, 4) {
        run_room(input, out, head, bytes, second, text)?;
    }
    Ok(())
}

// The bytes, and zeros after them.
fn keep(pass: &mut [u8], bytes: &[u8]) {
    for (i, b) in pass.iter_mut().enumerate() {
        *b = byte(bytes, i);
    }
}

// The next granule, joined to the n bytes of the pass, which is then the result: how many bytes that has. A refusal is printed.
fn join_next<R: Read, W: Write>(
    input: &mut R,
    out: &mut W,
    pass: &mut [u8],
    n: usize,
    second: &mut [u8],
) -> io::Result<usize> {
    let mut size = [0u8; 4];
    if !read(input, &mut size)? {
        return Ok(0);
    }
    let m = read_part(input, second, word(&size, 0, 4) as usize)?;
    let mut room = [FILL; ROOM];
    match rewrite::join::join_pass(part(pass, 0, n), part(second, 0, m), &mut room) {
        Ok(k) => {
            keep(pass, part(&room, 0, k));
            Ok(k)
        }
        Err(r) => {
            refusal(out, r)?;
            Ok(0)
        }
    }
}

// So many granules after the first of n bytes, joined to it one by one: how many bytes the pass has.
fn join_others<R: Read, W: Write>(
    input: &mut R,
    out: &mut W,
    pass: &mut [u8],
    n: usize,
    second: &mut [u8],
    others: u64,
) -> io::Result<usize> {
    let mut size: usize = n;
    for _ in 0..others {
        size = join_next(input, out, pass, size, second)?;
    }
    Ok(size)
}

fn run_pass<R: Read, W: Write>(
    input: &mut R,
    out: &mut W,
    head: &[u8],
    pass: &mut [u8],
    n: usize,
    second: &mut [u8],
    text: &[u8],
) -> io::Result<()> {
    let size = join_others(input, out, pass, n, second, word(head, 12, 4))?;
    say(out, b" written")?;
    number(out, size as u64)?;
    if !holds(part(pass, 0, size), text) {
        say(out, b" lost")?;
    }
    say(out, b"\n")
}

fn run_case<R: Read, W: Write>(
    input: &mut R,
    out: &mut W,
    head: &[u8],
    bytes: &mut [u8],
    second: &mut [u8],
    text: &mut [u8],
) -> io::Result<()> {
    let n = read_part(input, bytes, word(head, 0, 4) as usize)?;
    let m = read_part(input, second, word(head, 4, 4) as usize)?;
    let t = read_part(input, text, word(head, 8, 4) as usize)?;
    if let Asked::Pass = Asked::from(byte(head, 16)) {
        return run_pass(input, out, head, bytes, n, second, &text[..t]);
    }
    run_rooms(input, out, head, &bytes[..n], &second[..m], &text[..t])
}

fn run_next<R: Read, W: Write>(input: &mut R, out: &mut W, head: &[u8]) -> io::Result<()> {
    let mut bytes = [0u8; ROOM];
    let mut second = [0u8; ROOM];
    let mut text = [0u8; ROOM];
    run_case(input, out, head, &mut bytes, &mut second, &mut text)
}

fn main(rt: HostRuntime) -> io::Result<()> {
    let mut input = rt.stdin();
    let mut out = rt.stdout();
    let most: usize = 100000;
    for _ in 0..most {
        let mut head = [0u8; 31];
        if !read(&mut input, &mut head)? {
            return Ok(());
        }
        run_next(&mut input, &mut out, &head)?;
    }
    Ok(())
}
