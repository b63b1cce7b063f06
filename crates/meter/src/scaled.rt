// Scaled numbers: a signed scale byte s and an integer I of 2, 4 or 8 bytes stand for I / 10^s, which is I * 10^-s where s is below 0.
// Read, written, rounded to decimals, and shown by a meter.
ghost use Rattle.std.specs.Prelude.{◌≡◌, true, false, ◌+◌, ◌*◌, ◌^◌, ◌≤◌, ◌<◌, leb, length, nat_abs};
ghost use Rattle.calendar.specs.Said.{said};
ghost use Rattle.meter.specs.Integer.{is_width, twos, word_of};
ghost use Rattle.meter.specs.Scaled.{is_scale, divided, multiplied, stands_for};
ghost use Rattle.meter.specs.Scaled.{none_of, is_none_word, defined_of, scaled_read_at};
ghost use Rattle.meter.specs.Scaled.{fits_defined, WritesParts, WritesScaled};
ghost use Rattle.meter.specs.Rounding.{is_decimals, near, signed_of, nearest_to, rounded_of};
ghost use Rattle.meter.specs.Reading.{quotient, converted, carried, shown_as, reading_of, ExactCase};

use calendar::{Refusal, fault};

#[derive(Clone, Copy)]
pub struct Scaled {
    pub integer: i64,
    pub scale: i8,
}

// What a meter shows.
#[derive(Clone, Copy)]
pub enum Reading {
    Missing,
    Whole(f64),
    Between(f64),
}

const POWERS: [u64; 16] = [
    1,
    10,
    100,
    1_000,
    10_000,
    100_000,
    1_000_000,
    10_000_000,
    100_000_000,
    1_000_000_000,
    10_000_000_000,
    100_000_000_000,
    1_000_000_000_000,
    10_000_000_000_000,
    100_000_000_000_000,
    1_000_000_000_000_000,
];

fn power(exponent: usize) -> u64
    requires { exponent < 16 }
    ensures { result ≡ 10 ^ exponent }
{
    POWERS[exponent]
}

fn is_decimals(decimals: i8) -> bool
    ensures { result ≡ is_decimals decimals }
{
    if decimals < 0 {
        return false;
    }
    decimals <= 15
}

// The exponent of ten that decimals or a scale stand for, above or below the line.
fn exponent_of(decimals: i8) -> usize
    ensures { result ≡ nat_abs decimals }
{
    decimals.unsigned_abs() as usize
}

fn is_scale(scale: i8) -> bool
    ensures { result ≡ is_scale scale }
{
    exponent_of(scale) <= 15
}

// The scale byte and the n bytes after it lie within `len`.
fn holds_scaled(len: usize, at: usize, n: usize) -> bool
    ensures { result ≡ leb (at + (1 + n)) len }
{
    if len <= at {
        return false;
    }
    crate::integer::holds(len, at + 1, n)
}

fn scale_of(b: u8) -> i8
    ensures { result ≡ twos 128 b }
{
    crate::integer::signed_of(b as u64, 128) as i8
}

// The integer is the undefined one: the lowest signed, the highest unsigned.
fn is_none_word(width: usize, signed: bool, word: u64) -> bool
    requires { is_width width ≡ true }
    ensures { result ≡ is_none_word signed width word }
{
    if signed {
        return word == crate::integer::half(width);
    }
    word == crate::integer::top(width)
}

// A defined integer by its bytes' number.
fn defined(width: usize, signed: bool, word: u64, scale: i8) -> Result<Option<Scaled>, Refusal>
    requires { (is_width width ≡ true) × (word < 256 ^ width) }
    ensures { said result ≡ defined_of signed width word scale }
{
    if !is_scale(scale) {
        return Err(Refusal {
            number: fault::MALFORMED,
            place: 0,
        });
    }
    if signed {
        let integer = crate::integer::signed_of(word, crate::integer::half(width));
        return Ok(Some(Scaled { integer, scale }));
    }
    if word > 0x7fff_ffff_ffff_ffff {
        return Err(Refusal {
            number: fault::MALFORMED,
            place: 0,
        });
    }
    Ok(Some(Scaled {
        integer: word as i64,
        scale,
    }))
}

pub fn read_scaled(
    bytes: &[u8],
    at: usize,
    width: usize,
    signed: bool,
) -> Result<Option<Scaled>, Refusal>
    ensures { said result ≡ scaled_read_at signed width bytes.now at }
{
    if !holds_scaled(bytes.len(), at, width) {
        return Err(Refusal {
            number: fault::OUTSIDE,
            place: bytes.len(),
        });
    }
    if !crate::integer::is_width(width) {
        return Err(Refusal {
            number: fault::MALFORMED,
            place: 0,
        });
    }
    let word = crate::integer::be(bytes, at + 1, width);
    if is_none_word(width, signed, word) {
        return Ok(None);
    }
    defined(width, signed, word, scale_of(bytes[at]))
}

// The integer and its scale can be written: they are in their limits, and do not read as undefined.
fn fits_defined(width: usize, signed: bool, integer: i64, scale: i8) -> bool
    requires { is_width width ≡ true }
    ensures { result ≡ fits_defined signed width integer scale }
{
    if !is_scale(scale) {
        return false;
    }
    let size = integer.unsigned_abs();
    if signed {
        return size < crate::integer::half(width);
    }
    if integer < 0 {
        return false;
    }
    size < crate::integer::top(width)
}

// The bits of the undefined integer, as 8 bytes hold it.
fn none_bits(width: usize, signed: bool) -> u64
    requires { is_width width ≡ true }
    ensures { result ≡ word_of (none_of signed width) }
{
    if signed {
        return 0xffff_ffff_ffff_ffff - (crate::integer::half(width) - 1);
    }
    crate::integer::top(width)
}

// A scale byte and n bytes of an integer, where they are right and the room is large enough.
fn write_parts(
    room: &mut [u8],
    n: usize,
    right: bool,
    scale: u64,
    word: u64,
) -> Result<usize, Refusal>
    requires { n ≤ 8 }
    ensures { WritesParts room.old n right scale word result room.new }
{
    if !right {
        return Err(Refusal {
            number: fault::MALFORMED,
            place: 0,
        });
    }
    if room.len() < 1 + n {
        return Err(Refusal {
            number: fault::ROOM,
            place: 1 + n,
        });
    }
    crate::integer::put_be(room, 0, 1, scale);
    crate::integer::put_be(room, 1, n, word);
    Ok(1 + n)
}

pub fn write_scaled(
    room: &mut [u8],
    width: usize,
    signed: bool,
    number: Option<Scaled>,
) -> Result<usize, Refusal>
    ensures { WritesScaled room.old signed width number result room.new }
{
    if !crate::integer::is_width(width) {
        return Err(Refusal {
            number: fault::MALFORMED,
            place: 0,
        });
    }
    match number {
        None => write_parts(room, width, true, 0, none_bits(width, signed)),
        Some(n) => {
            let right = fits_defined(width, signed, n.integer, n.scale);
            let low = crate::integer::bits_of(n.scale as i64);
            write_parts(room, width, right, low, crate::integer::bits_of(n.integer))
        }
    }
}

// m / p, to the nearest whole number, a half upwards.
fn near_to(m: u64, p: u64) -> u64
    requires { (0 < p) × (m ≤ 2 ^ 63) }
    ensures { result ≡ near m p }
{
    let q = m / p;
    let r = m % p;
    if r < p - r { q } else { q + 1 }
}

// `size` with the sign of `integer`, where that is a signed 64-bit number.
fn with_sign(integer: i64, size: u64) -> Result<Option<i64>, Refusal>
    requires { size ≤ 2 ^ 63 }
    ensures { said result ≡ signed_of integer size }
{
    if integer < 0 {
        if size == 0 {
            return Ok(Some(0));
        }
        let m = size - 1;
        return Ok(Some(-1 - (m as i64)));
    }
    if size > 0x7fff_ffff_ffff_ffff {
        return Err(Refusal {
            number: fault::MALFORMED,
            place: 0,
        });
    }
    Ok(Some(size as i64))
}

// `size` * 10^exponent with the sign of `integer`. The product is tested before it is made, so 64 bits are enough.
fn grown(integer: i64, size: u64, exponent: usize) -> Result<Option<i64>, Refusal>
    requires { exponent ≤ 15 }
    ensures { said result ≡ signed_of integer (size * 10 ^ exponent) }
{
    let t = power(exponent);
    if size > 0x8000_0000_0000_0000 / t {
        return Err(Refusal {
            number: fault::MALFORMED,
            place: 0,
        });
    }
    with_sign(integer, size * t)
}

// I / 10^s times 10^d to the nearest whole number: one of the two powers cancels the other.
fn nearest_quotient(integer: i64, d: usize, s: usize) -> Result<Option<i64>, Refusal>
    requires { (d ≤ 15) × (s ≤ 15) }
    ensures { said result ≡ nearest_to (divided integer s) d }
{
    let m = integer.unsigned_abs();
    if s <= d {
        return grown(integer, m, d - s);
    }
    let p = power(s - d);
    with_sign(integer, near_to(m, p))
}

// I * 10^k times 10^d, which is whole: two products, each tested before it is made.
fn nearest_product(integer: i64, d: usize, k: usize) -> Result<Option<i64>, Refusal>
    requires { (d ≤ 15) × (k ≤ 15) }
    ensures { said result ≡ nearest_to (multiplied integer k) d }
{
    let m = integer.unsigned_abs();
    let p = power(k);
    if m > 0x8000_0000_0000_0000 / p {
        return Err(Refusal {
            number: fault::MALFORMED,
            place: 0,
        });
    }
    grown(integer, m * p, d)
}

// By the sign of the scale.
fn nearest(integer: i64, scale: i8, d: usize) -> Result<Option<i64>, Refusal>
    requires { (is_scale scale ≡ true) × (d ≤ 15) }
    ensures { said result ≡ nearest_to (stands_for integer scale) d }
{
    if scale < 0 {
        return nearest_product(integer, d, exponent_of(scale));
    }
    nearest_quotient(integer, d, exponent_of(scale))
}

pub fn round_to(number: Option<Scaled>, decimals: i8) -> Result<Option<i64>, Refusal>
    ensures { said result ≡ rounded_of number decimals }
{
    if !is_decimals(decimals) {
        return Err(Refusal {
            number: fault::MALFORMED,
            place: 0,
        });
    }
    match number {
        None => Ok(None),
        Some(n) if is_scale(n.scale) => nearest(n.integer, n.scale, exponent_of(decimals)),
        Some(_) => Err(Refusal {
            number: fault::MALFORMED,
            place: 0,
        }),
    }
}

// I / 10^s: one division of two numbers that an f64 holds exactly.
fn show_quotient(integer: i64, s: usize) -> Result<Reading, Refusal>
    requires { s ≤ 15 }
    ensures { said result ≡ shown_as (divided integer s) (quotient integer s) }
{
    let m = integer.unsigned_abs();
    if m > 0x20_0000_0000_0000 {
        return Err(Refusal {
            number: fault::MALFORMED,
            place: 0,
        });
    }
    let p = power(s);
    let q = (integer as f64) / (p as f64);
    if m % p == 0 {
        Ok(Reading::Whole(q))
    } else {
        Ok(Reading::Between(q))
    }
}

// I * 10^k, which is whole: tested before it is made, and one conversion of a number that an f64 holds exactly.
fn show_product(integer: i64, k: usize) -> Result<Reading, Refusal>
    requires { k ≤ 15 }
    ensures { said result ≡ shown_as (multiplied integer k) (converted integer k) }
{
    let p = power(k);
    if integer.unsigned_abs() > 0x20_0000_0000_0000 / p {
        return Err(Refusal {
            number: fault::MALFORMED,
            place: 0,
        });
    }
    let product = integer * (p as i64);
    Ok(Reading::Whole(product as f64))
}

// By the sign of the scale.
fn show_number(integer: i64, scale: i8) -> Result<Reading, Refusal>
    requires { is_scale scale ≡ true }
    ensures { said result ≡ shown_as (stands_for integer scale) (carried integer scale) }
{
    if scale < 0 {
        return show_product(integer, exponent_of(scale));
    }
    show_quotient(integer, exponent_of(scale))
}

// The reading that a meter shows.
pub fn reading_of(number: Option<Scaled>) -> Result<Reading, Refusal>
    ensures result_value { said result ≡ reading_of number }
    ensures exact { ExactCase number result }
{
    match number {
        None => Ok(Reading::Missing),
        Some(n) if is_scale(n.scale) => show_number(n.integer, n.scale),
        Some(_) => Err(Refusal {
            number: fault::MALFORMED,
            place: 0,
        }),
    }
}
