// Judges every prefix of every product of standard input and prints each answer that differs from the one before it, as the vectors'
// expected text does; then rows into rooms of several sizes, queries, and ground points. A case (tools/judge-cases writes them) is four
// big-endian numbers of 4 bytes, a product and the rows that are due: the kind, the number to print, the product's length, and how many
// records to ask for, or how many bytes of rows there are.
#![tactic(auto)]

mod answers;
mod products;
mod queries;

use crate::products::{print_product, print_rows};
use crate::queries::{print_points, print_queries};
use cases::input::{part, read, read_part, word};
use cases::print::say;
use std::io;
use std::io::{Read, Write};

fn print_case<W: Write>(out: &mut W, case: &[u8], product: &[u8], due: &[u8]) -> io::Result<()> {
    let kind = word(case, 0, 4);
    let number = word(case, 4, 4);
    let asked = word(case, 12, 4) as usize;
    match kind {
        1 => print_product(out, number, product),
        2 => print_rows(out, number, product, due, false),
        3 => print_queries(out, number, product, asked),
        4 => print_points(out, number, product),
        5 => print_rows(out, number, product, due, true),
        _ => say(out, b"unknown case\n"),
    }
}

// How many bytes of rows a case has.
fn due_in(case: &[u8]) -> usize {
    match word(case, 0, 4) {
        2 | 5 => word(case, 12, 4) as usize,
        _ => 0,
    }
}

// False at the end of the input.
fn run_case<R: Read, W: Write>(input: &mut R, out: &mut W) -> io::Result<bool> {
    let mut case = [0u8; 16];
    if !read(input, &mut case)? {
        return Ok(false);
    }
    let mut room = [0u8; 24000];
    let mut due = [0u8; 28000];
    let n = word(&case, 8, 4) as usize;
    let m = due_in(&case);
    let got = read_part(input, &mut room, n)?;
    let rows = read_part(input, &mut due, m)?;
    if got < n || rows < m {
        say(out, b"a case is cut short\n")?;
        return Ok(false);
    }
    print_case(out, &case, part(&room, 0, got), part(&due, 0, rows))?;
    Ok(true)
}

fn main(rt: HostRuntime) -> io::Result<()> {
    let mut input = rt.stdin();
    let mut out = rt.stdout();
    let most: usize = 100000;
    for _ in 0..most {
        if !run_case(&mut input, &mut out)? {
            return Ok(());
        }
    }
    Ok(())
}
