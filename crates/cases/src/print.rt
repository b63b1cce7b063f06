// What is printed: words, and numbers after a space. Whoever prints the last of a line ends the line.
ghost use Rattle.std.specs.Prelude.{◌≡◌, ◌*◌, ◌∷◌, take, drop, OnOk};
ghost use Rattle.std.specs.Fmt.{decimal};
ghost use Rattle.std.specs.Io.KnownBytes.{Appends};

use crate::input::part;
use calendar::Refusal;
use std::io;
use std::io::Write;

pub fn say<W: Write>(out: &mut W, text: &[u8]) -> io::Result<()>
    ensures { OnOk result (Appends (W.contents out.old) (W.contents out.new) text.now) }
{
    out.write_all(text)
}

pub fn number<W: Write>(out: &mut W, n: u64) -> io::Result<()>
    ensures { OnOk result (Appends (W.contents out.old) (W.contents out.new) (32 ∷ decimal n)) }
{
    write!(out, " {n}")
}

pub fn refusal<W: Write>(out: &mut W, r: Refusal) -> io::Result<()> {
    say(out, b" refused")?;
    number(out, r.number as u64)?;
    number(out, r.place as u64)
}

// Each byte as a number.
pub fn numbers<W: Write>(out: &mut W, bytes: &[u8]) -> io::Result<()> {
    for b in bytes {
        number(out, u64::from(*b))?;
    }
    Ok(())
}

// The name of a kind, of names that have `width` bytes each; empty where it has none.
pub fn name_of(names: &[u8], width: u8, kind: u8) -> &[u8]
    ensures { result.now ≡ take width (drop (kind * width) names.now) }
{
    part(names, (kind as usize) * (width as usize), width as usize)
}

pub fn signed<W: Write>(out: &mut W, v: i64) -> io::Result<()> {
    write!(out, " {v}")
}

// A float's bits, 16 digits of base 16; a NaN has none that are its own.
pub fn float<W: Write>(out: &mut W, x: f64) -> io::Result<()> {
    if x == x {
        let bits = f64::to_bits(x);
        write!(out, " {bits:016x}")
    } else {
        say(out, b" nan")
    }
}
