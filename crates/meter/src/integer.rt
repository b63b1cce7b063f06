// Big-endian integers of 2, 4 and 8 bytes, signed and unsigned: read at an offset of lent bytes, written to lent room.
ghost use Rattle.std.specs.Prelude.{◌≡◌, true, ◌+◌, ◌^◌, ◌≤◌, ◌<◌, leb, length, nat_abs};
ghost use Rattle.calendar.specs.Said.{said};
ghost use Rattle.meter.specs.Lent.{Writes};
ghost use Rattle.meter.specs.Integer.{be_at, stored, twos, word_of, is_width, top_of, half_of, fits_unsigned, fits_signed};
ghost use Rattle.meter.specs.Integer.{unsigned_at, signed_at, WritesUnsigned, WritesSigned};

use calendar::{Refusal, fault};

pub(crate) fn wide(x: u8) -> u64
    ensures { result ≡ x }
{
    x as u64
}

// The n bytes from `at` on lie within `len`.
pub fn holds(len: usize, at: usize, n: usize) -> bool
    ensures { result ≡ leb (at + n) len }
{
    at <= len && n <= len - at
}

// The number in the n bytes from `at` on.
pub(crate) fn be(bytes: &[u8], at: usize, n: usize) -> u64
    requires { (n ≤ 8) × (at + n ≤ length bytes.now) }
    ensures { result ≡ be_at bytes.now at n }
{
    let mut v: u64 = 0;
    for b in &bytes[at..at + n] {
        v = v * 256 + wide(*b);
    }
    v
}

// The n low bytes of `v` from `at` on.
pub(crate) fn put_be(room: &mut [u8], at: usize, n: usize, v: u64)
    requires { at + n ≤ length room.old }
    ensures { room.new ≡ stored room.old at n v }
{
    let mut rest = v;
    for i in (0..n).rev() {
        room[at + i] = (rest % 256) as u8;
        rest = rest / 256;
    }
}

// The bits of `z`, as 8 bytes hold them.
pub fn bits_of(z: i64) -> u64
    ensures { result ≡ word_of z }
{
    if z < 0 {
        let m = -1 - z;
        0xffff_ffff_ffff_ffff - (m as u64)
    } else {
        z as u64
    }
}

// The number of two's complement that `v` stands for, of a type whose least number is -half.
pub(crate) fn signed_of(v: u64, half: u64) -> i64
    requires { (0 < half) × (half ≤ 2 ^ 63) × (v < half + half) }
    ensures { result ≡ twos half v }
{
    if v < half {
        v as i64
    } else {
        let m = half - 1 - (v - half);
        -1 - (m as i64)
    }
}

#[tactic(auto, unfolding(crate::specs::Integer::is_width))]
pub(crate) fn is_width(width: usize) -> bool
    ensures { result ≡ is_width width }
{
    matches!(width, 2 | 4 | 8)
}

// The greatest number of a width.
#[tactic(auto, unfolding(crate::specs::Integer::is_width, crate::specs::Integer::top_of))]
pub(crate) fn top(width: usize) -> u64
    requires { is_width width ≡ true }
    ensures { result ≡ top_of width }
{
    match width {
        2 => 0xffff,
        4 => 0xffff_ffff,
        _ => 0xffff_ffff_ffff_ffff,
    }
}

// Half of the numbers of a width.
#[tactic(auto, unfolding(crate::specs::Integer::is_width, crate::specs::Integer::half_of))]
pub(crate) fn half(width: usize) -> u64
    requires { is_width width ≡ true }
    ensures { result ≡ half_of width }
{
    match width {
        2 => 0x8000,
        4 => 0x8000_0000,
        _ => 0x8000_0000_0000_0000,
    }
}

pub fn read_unsigned(bytes: &[u8], at: usize, width: usize) -> Result<u64, Refusal>
    ensures { said result ≡ unsigned_at bytes.now at width }
{
    if !holds(bytes.len(), at, width) {
        return Err(Refusal {
            number: fault::OUTSIDE,
            place: bytes.len(),
        });
    }
    if !is_width(width) {
        return Err(Refusal {
            number: fault::MALFORMED,
            place: 0,
        });
    }
    Ok(be(bytes, at, width))
}

pub fn read_signed(bytes: &[u8], at: usize, width: usize) -> Result<i64, Refusal>
    ensures { said result ≡ signed_at bytes.now at width }
{
    let word = read_unsigned(bytes, at, width)?;
    Ok(signed_of(word, half(width)))
}

// `v` fits the width.
#[tactic(auto, unfolding(crate::specs::Integer::fits_unsigned))]
fn fits_unsigned(width: usize, v: u64) -> bool
    ensures { result ≡ fits_unsigned width v }
{
    is_width(width) && v <= top(width)
}

fn fits_signed(width: usize, z: i64) -> bool
    ensures { result ≡ fits_signed width z }
{
    if !is_width(width) {
        return false;
    }
    let h = half(width);
    if z < 0 {
        return z.unsigned_abs() <= h;
    }
    z.unsigned_abs() < h
}

// The n low bytes of `word` at the start of the room, where what is to be written is right and the room is large enough.
pub(crate) fn write_word(
    room: &mut [u8],
    n: usize,
    right: bool,
    word: u64,
) -> Result<usize, Refusal>
    ensures { Writes room.old n right (stored room.old 0 n word) result room.new }
{
    if !right {
        return Err(Refusal {
            number: fault::MALFORMED,
            place: 0,
        });
    }
    if room.len() < n {
        return Err(Refusal {
            number: fault::ROOM,
            place: n,
        });
    }
    put_be(room, 0, n, word);
    Ok(n)
}

pub fn write_unsigned(room: &mut [u8], width: usize, value: u64) -> Result<usize, Refusal>
    ensures { WritesUnsigned room.old width value result room.new }
{
    write_word(room, width, fits_unsigned(width, value), value)
}

pub fn write_signed(room: &mut [u8], width: usize, value: i64) -> Result<usize, Refusal>
    ensures { WritesSigned room.old width value result room.new }
{
    write_word(room, width, fits_signed(width, value), bits_of(value))
}
