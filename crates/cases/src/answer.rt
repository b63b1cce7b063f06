// An answer, flattened, and whether it is the one that a case asks for.
ghost use Rattle.std.specs.Prelude.{◌≡◌, ◌+◌, ◌≤◌, true, length, replicate, IfOk};
ghost use Rattle.cases.specs.Agree.{HasValues, Agrees};
ghost use Rattle.cases.specs.Answers.{answer_of, values_of, refused_as, written_as};

use crate::input::{byte, word};
use crate::print::{name_of, number, numbers, say};
use calendar::Refusal;
use std::io;
use std::io::Write;

// Its tag (0 a value, 1 a refusal, and others that a program gives a meaning), a refusal's number, five numbers of which the first is a
// refusal's place, and whether what was lent is as it should be.
#[derive(Clone, Copy)]
pub struct Answer {
    pub tag: u8,
    pub number: u8,
    pub values: [u64; 5],
    pub kept: bool,
}

pub fn tagged(tag: u8, kept: bool) -> Answer
    ensures { result ≡ answer_of tag 0 (replicate 5 0) kept }
{
    Answer {
        tag,
        number: 0,
        values: [0u64; 5],
        kept,
    }
}

pub fn values(a: u64, b: u64, c: u64, d: u64, e: u64) -> Answer
    ensures { result ≡ values_of a b c d e }
{
    Answer {
        tag: 0,
        number: 0,
        values: [a, b, c, d, e],
        kept: true,
    }
}

pub fn value(a: u64, b: u64, c: u64) -> Answer
    ensures { result ≡ values_of a b c 0 0 }
{
    values(a, b, c, 0, 0)
}

pub fn refused(r: Refusal, kept: bool) -> Answer
    ensures { result ≡ refused_as r kept }
{
    Answer {
        tag: 1,
        number: r.number,
        values: [r.place as u64, 0, 0, 0, 0],
        kept,
    }
}

pub fn written(w: Result<usize, Refusal>, kept: bool) -> Answer
    ensures { result ≡ written_as w kept }
{
    match w {
        Ok(n) => Answer {
            tag: 0,
            number: 0,
            values: [n as u64, 0, 0, 0, 0],
            kept,
        },
        Err(r) => refused(r, kept),
    }
}

// The answer's first n numbers, or all five, stand in the case from `at` on, 8 bytes each.
fn has_values(case: &[u8], at: usize, x: Answer, n: usize) -> bool
    requires { at + 40 ≤ length case.now }
    ensures { result ≡ true → HasValues case.now at x n }
{
    for (i, v) in x.values[..n.min(5)].iter().enumerate() {
        if *v != word(case, at + 8 * i, 8) {
            return false;
        }
    }
    true
}

// Whether the answer is the one that stands in the case from `at` on (its tag, its number, and from at + 8 on the first n of its numbers),
// and what was lent is as it should be.
pub fn agrees(case: &[u8], at: usize, x: Answer, n: usize) -> bool
    ensures { result ≡ true → Agrees case.now at x n }
{
    if case.len() < at {
        return false;
    }
    if case.len() - at < 48 {
        return false;
    }
    if x.tag != case[at] {
        return false;
    }
    if x.number != case[at + 1] {
        return false;
    }
    if !x.kept {
        return false;
    }
    has_values(case, at + 8, x, n)
}

fn print_values<W: Write>(out: &mut W, x: Answer) -> io::Result<()> {
    for v in &x.values {
        number(out, *v)?;
    }
    Ok(())
}

fn print_answer<W: Write>(out: &mut W, x: Answer) -> io::Result<()> {
    say(out, b" answer")?;
    number(out, x.tag as u64)?;
    number(out, x.number as u64)?;
    print_values(out, x)?;
    if x.kept {
        say(out, b" kept\n")
    } else {
        say(out, b" lost\n")
    }
}

// Whether the answer agrees; one that does not is printed whole, with the name of the case's kind (of names that have `width` bytes each),
// `mark` and the case's bytes.
pub fn judged<W: Write>(
    out: &mut W,
    names: &[u8],
    width: u8,
    case: &[u8],
    at: usize,
    mark: usize,
    x: Answer,
    n: usize,
) -> io::Result<bool>
    ensures { IfOk result (λ ok. ok ≡ true → Agrees case.now at x n) }
{
    if agrees(case, at, x, n) {
        return Ok(true);
    }
    say(out, b"DISAGREES ")?;
    say(out, name_of(names, width, byte(case, 0)))?;
    number(out, mark as u64)?;
    say(out, b" case")?;
    numbers(out, case)?;
    print_answer(out, x)?;
    Ok(false)
}
