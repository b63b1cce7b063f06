// How many cases of each kind agreed, and how many did not. Kinds are below 32.
ghost use Rattle.std.specs.Prelude.{◌≡◌, replicate};
ghost use Rattle.cases.specs.Answers.{counts_of, counted_as};

use crate::print::{name_of, number, say};
use std::io;
use std::io::Write;

#[derive(Clone, Copy)]
pub struct Counts {
    pub agreed: [u64; 32],
    pub disagreed: [u64; 32],
}

pub fn none() -> Counts
    ensures { result ≡ counts_of (replicate 32 0) (replicate 32 0) }
{
    Counts {
        agreed: [0u64; 32],
        disagreed: [0u64; 32],
    }
}

pub fn counted(counts: Counts, kind: u8, ok: bool) -> Counts
    ensures { result ≡ counted_as counts kind ok }
{
    let at = (kind % 32) as usize;
    let mut next = counts;
    if ok {
        next.agreed[at] = std::num::wrapping_add_u64(next.agreed[at], 1);
    } else {
        next.disagreed[at] = std::num::wrapping_add_u64(next.disagreed[at], 1);
    }
    next
}

fn print_count<W: Write>(out: &mut W, name: &[u8], agreed: u64, disagreed: u64) -> io::Result<()> {
    if name.len() == 0 {
        return Ok(());
    }
    say(out, name)?;
    number(out, agreed)?;
    say(out, b" agreed,")?;
    number(out, disagreed)?;
    say(out, b" disagreed\n")
}

// A line for each kind from 1 on that has a name, of names that have `width` bytes each.
pub fn print_counts<W: Write>(
    out: &mut W,
    counts: Counts,
    names: &[u8],
    width: u8,
) -> io::Result<()> {
    for kind in 1..32 {
        print_count(
            out,
            name_of(names, width, kind as u8),
            counts.agreed[kind],
            counts.disagreed[kind],
        )?;
    }
    Ok(())
}
