// Cases are read from a reader, standard input or a file, into lent rooms, and taken apart by their bytes.
ghost use Rattle.std.specs.Prelude.{◌≡◌, ◌<◌, true, false, length, take, drop, slice_index, IfOk};
ghost use Rattle.std.specs.Io.KnownBytes.{Consumes, IsAtEnd};
ghost use Rattle.cases.specs.Case.{number_at, Same, IsPrefixLen};

use std::io;
use std::io::Read;

// Reads until the room is full or the input ends: how many bytes came to the room's start.
fn fill<R: Read>(input: &mut R, room: &mut [u8]) -> io::Result<usize>
    ensures count { IfOk result (λ n. IsPrefixLen n room.new) }
    ensures bytes { IfOk result (λ n. Consumes (R.remaining input.old) (R.remaining input.new) (take n room.new)) }
    ensures end { IfOk result (λ n. n < length room.new → IsAtEnd (R.remaining input.new)) }
{
    let mut done: usize = 0;
    // The step is what a read gave.
    while done < room.len() {
        let n = input.read(&mut room[done..])?;
        if n == 0 {
            return Ok(done);
        }
        done += n;
    }
    Ok(done)
}

// Fills the room; false where the input ends before.
pub fn read<R: Read>(input: &mut R, room: &mut [u8]) -> io::Result<bool>
    ensures full { IfOk result (λ full. full ≡ true → Consumes (R.remaining input.old) (R.remaining input.new) room.new) }
    ensures end { IfOk result (λ full. full ≡ false → IsAtEnd (R.remaining input.new)) }
{
    let n = room.len();
    Ok(fill(input, room)? == n)
}

// How many bytes came to the room's start, of n that were to come; none where there is no room for n.
pub fn read_part<R: Read>(input: &mut R, room: &mut [u8], n: usize) -> io::Result<usize>
    ensures count { IfOk result (λ got. IsPrefixLen got room.new) }
    ensures bytes { IfOk result (λ got. Consumes (R.remaining input.old) (R.remaining input.new) (take got room.new)) }
{
    if n <= room.len() {
        return fill(input, &mut room[..n]);
    }
    Ok(0)
}

// The byte of a case at `at`, 0 beyond its end.
pub fn byte(case: &[u8], at: usize) -> u8
    ensures { result ≡ slice_index case.now at }
{
    if at < case.len() { case[at] } else { 0 }
}

// The number in the n bytes from `at` on, 0 where they are not all there or n is neither 2, 4 nor 8.
pub fn word(case: &[u8], at: usize, n: usize) -> u64
    ensures { result ≡ number_at case.now at n }
{
    meter::integer::read_unsigned(case, at, n).unwrap_or(0)
}

// The n bytes of a case from `from` on, or as many as there are.
pub fn part(case: &[u8], from: usize, n: usize) -> &[u8]
    ensures { result.now ≡ take n (drop from case.now) }
{
    if case.len() < from {
        return &case[..0];
    }
    if case.len() - from < n {
        return &case[from..];
    }
    let to = from + n;
    &case[from..to]
}

// n, or the room's length where that is less. It takes the room and not its length, so that `&mut room[..n]` needs no proof.
pub fn fitting(n: usize, room: &[u8]) -> usize
    ensures { IsPrefixLen result room.now }
{
    n.min(room.len())
}

// Whether the bytes of the room are those of the case from `at` on.
pub fn is_same(room: &[u8], case: &[u8], at: usize) -> bool
    ensures { result ≡ true → Same room.now case.now at }
{
    if case.len() < at {
        return false;
    }
    if case.len() - at < room.len() {
        return false;
    }
    room == &case[at..at + room.len()]
}
