// Prints the listing of the product in the file that its argument names, or on standard input; a refusal is one line.
// What cannot be read or written is a line on standard error, and the status is 0 (docs/DECISIONS.md, F30); only where that line cannot be
// written `main` ends with the error.
#![tactic(auto)]

ghost use Rattle.std.specs.Prelude.{◌≤◌, length, IfOk};

use calendar::Refusal;
use std::fs::File;
use std::io::{Read, Write};
use std::rt::Files;
use std::{env, io};

const HELP: [u8; 602] = *b"\
usage: list [FILE]\n\
Lists the records of the EPS native product in FILE, or on standard input: a line with their count,\n\
then a line for each record with its start, class, group, subclass, version and size.\n\
A product that is refused prints one line, `refused`, the number and the place.\n\
It takes 65,536 bytes, the limit that was asked for; a longer product is `refused 23 65536`. For a\n\
product of any size there is ./warpladle list FILE, and for programs libwarpladle.a (tools/archive),\n\
whose wl_rows gives these numbers of each record.\n\
README.md has the numbers, the places, the classes and the groups.\n";

// Reads until the bytes are full or the input ends.
fn read_input<F: Read>(input: &mut F, bytes: &mut [u8]) -> io::Result<usize>
    ensures { IfOk result (λ n. n ≤ length bytes.new) }
{
    let mut done: usize = 0;
    while done < bytes.len() {
        let more = input.read(&mut bytes[done..])?;
        if more == 0 {
            return Ok(done);
        }
        done += more;
    }
    Ok(done)
}

// A line of what failed and why, without the system's number behind the reason.
fn fail<R: Eprint + Alloc>(rt: &R, what: &str, e: io::Error) -> io::Result<()> {
    let why = format!(in rt.alloc(); "{e}")?;
    match why.as_str().split_once(" (os error ") {
        Some((reason, _)) => eprintln!(rt; "{what}: {reason}"),
        None => eprintln!(rt; "{what}: {}", why.as_str()),
    }
}

fn print<R: Print + Eprint + Alloc>(rt: &R, bytes: &[u8]) -> io::Result<()> {
    if let Err(e) = io::writer(rt).write_all(bytes) {
        return fail(rt, "list: standard output", e);
    }
    Ok(())
}

// The room is enough for each refusal (listing's law `line_enough`).
fn print_refusal<R: Print + Eprint + Alloc>(rt: &R, r: Refusal) -> io::Result<()> {
    let mut room = [0u8; 64];
    if let Ok(n) = listing::refusal_line(r, &mut room) {
        return print(rt, &room[..n]);
    }
    Ok(())
}

// The room is enough for each product that is listed (listing's law `never_18`).
fn print_list<R: Print + Eprint + Alloc>(rt: &R, bytes: &[u8]) -> io::Result<()> {
    let mut room = [0u8; 131072];
    match listing::list_product(bytes, &mut room) {
        Ok(n) => print(rt, &room[..n]),
        Err(r) => print_refusal(rt, r),
    }
}

// One byte more than the listing takes, so that it sees where there are too many.
fn list_input<R: Print + Eprint + Alloc, F: Read>(
    rt: &R,
    input: &mut F,
    name: &str,
) -> io::Result<()> {
    let mut bytes = [0u8; 65537];
    match read_input(input, &mut bytes) {
        Ok(n) => print_list(rt, &bytes[..n]),
        Err(e) => fail(rt, name, e),
    }
}

fn list_file<R: Files + Print + Eprint + Alloc>(rt: &R, name: &str) -> io::Result<()> {
    match File::open(rt, name) {
        Ok(mut file) => list_input(rt, &mut file, name),
        Err(e) => fail(rt, name, e),
    }
}

fn is_help(word: &[u8]) -> bool {
    word == b"--help".as_slice()
}

fn main(rt: HostRuntime) -> io::Result<()> {
    let mut words = match env::args(&rt) {
        Ok(words) => words.skip(1),
        Err(e) => return fail(&rt, "list: the file's name", e),
    };
    let Some(name) = words.next() else {
        return list_input(&rt, &mut rt.stdin(), "standard input");
    };
    if words.next().is_some() {
        return rt.eprintln("list: one file at most");
    }
    if is_help(name.as_bytes()) {
        return print(&rt, &HELP);
    }
    list_file(&rt, name.as_str())
}
