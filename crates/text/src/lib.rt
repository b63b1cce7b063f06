// The value of a header field by its kind: text, unsigned, signed, time, long time; its grammar, its exact number, and writing it.
#![tactic(auto)]

ghost use Rattle.std.specs.Prelude.{◌≡◌, ◌&&◌, ◌||◌, ℕ, ◌+◌, ◌-◌, ◌^◌, ◌≤◌, ◌<◌, eqb, nat_abs, length};
ghost use Rattle.calendar.specs.Said.{said};
ghost use Rattle.meter.specs.Lent.{inside};
ghost use Rattle.meter.specs.General.{digits_of, run_of, each, number_of, is_general, put_x};
ghost use Rattle.text.specs.Field.{is_x, signs, spaces, is_number, integer_of, is_value, number_read_at, count_at};
ghost use Rattle.text.specs.Writing.{spelled, fits_number, mark, still, put_rest, put_whole, put_number, WritesNumber};
ghost use Rattle.text.specs.Writing.{fits_text, put_text, WritesText};

use calendar::{Refusal, fault};
use meter::general::run;
use meter::integer::holds;

// Count is the kind of the size and the totals: an unsigned number that is never undefined.
#[derive(Clone, Copy)]
pub enum Kind {
    Text,
    Unsigned,
    Count,
    Signed,
    Time,
    LongTime,
}

// Each of the n bytes from `at` on is `lo` to `hi`. The least and the greatest of them tell: a loop that has no other way out is done
// sixteen bytes at a time, which pays where the field is wide.
fn is_each(bytes: &[u8], at: usize, n: usize, lo: u8, hi: u8) -> bool
    requires { at + n ≤ length bytes.now }
    ensures { result ≡ each lo hi bytes.now at n }
{
    let mut least = lo;
    let mut most = hi;
    for b in &bytes[at..at + n] {
        least = least.min(*b);
        most = most.max(*b);
    }
    if least < lo {
        return false;
    }
    most <= hi
}

fn is_x(bytes: &[u8], at: usize, width: usize) -> bool
    requires { at + width ≤ length bytes.now }
    ensures { result ≡ is_x bytes.now at width }
{
    if width == 0 {
        return false;
    }
    run(&bytes[at..at + width], 120, 120) == width
}

// The bytes that a sign takes.
fn sign(signed: bool, b: u8) -> usize
    ensures { (result ≡ signs signed b) × (result ≤ 1) }
{
    if !signed {
        return 0;
    }
    if b == 43 {
        return 1;
    }
    if b == 45 { 1 } else { 0 }
}

// Spaces, a sign where there may be one, and digits to the end.
fn is_number(bytes: &[u8], at: usize, width: usize, signed: bool) -> bool
    requires { at + width ≤ length bytes.now }
    ensures { result ≡ is_number signed bytes.now at width }
{
    let blank = run(&bytes[at..at + width], 32, 32);
    if width <= blank {
        return false;
    }
    let m = blank + sign(signed, bytes[at + blank]);
    if width <= m {
        return false;
    }
    run(&bytes[at + m..at + width], 48, 57) == width - m
}

fn is_numeric(bytes: &[u8], at: usize, width: usize, signed: bool) -> bool
    requires { at + width ≤ length bytes.now }
    ensures { result ≡ is_number signed bytes.now at width || is_x bytes.now at width }
{
    if is_number(bytes, at, width, signed) {
        return true;
    }
    is_x(bytes, at, width)
}

// A time of the form's own width, which is all of the field.
fn is_time(bytes: &[u8], at: usize, width: usize, long: bool) -> bool
    requires { at + width ≤ length bytes.now }
    ensures { result ≡ eqb width (digits_of long + 1) && is_general (digits_of long) bytes.now at }
{
    let due: usize = if long { 18 } else { 15 };
    if width != due {
        return false;
    }
    match meter::general::read_general(bytes, at, long) {
        Ok(_) => true,
        Err(_) => false,
    }
}

pub fn is_value(bytes: &[u8], at: usize, width: usize, kind: Kind) -> bool
    ensures { result ≡ inside bytes.now at width && is_value kind bytes.now at width }
{
    if !holds(bytes.len(), at, width) {
        return false;
    }
    match kind {
        Kind::Text => is_each(bytes, at, width, 32, 126),
        Kind::Unsigned => is_numeric(bytes, at, width, false),
        Kind::Count => is_number(bytes, at, width, false),
        Kind::Signed => is_numeric(bytes, at, width, true),
        Kind::Time => is_time(bytes, at, width, false),
        Kind::LongTime => is_time(bytes, at, width, true),
    }
}

// A byte below 48, as a space or a sign, counts 0.
fn digit(b: u8) -> u64
    ensures { result ≡ b - 48 }
{
    if b < 48 { 0 } else { (b - 48) as u64 }
}

// The number of at most 17 bytes.
fn number_of(bytes: &[u8], at: usize, n: usize) -> u64
    requires { (n ≤ 17) × (at + n ≤ length bytes.now) }
    ensures { result ≡ number_of bytes.now at n }
{
    let mut v: u64 = 0;
    for b in &bytes[at..at + n] {
        v = v * 10 + digit(*b);
    }
    v
}

// A field's number with its sign, where not all of the field is spaces.
fn integer(bytes: &[u8], at: usize, width: usize) -> i64
    requires { (width ≤ 17) × (at + width ≤ length bytes.now) × (spaces bytes.now at width < width) }
    ensures { result ≡ integer_of bytes.now at width }
{
    let m = number_of(bytes, at, width);
    let blank = run(&bytes[at..at + width], 32, 32);
    if bytes[at + blank] == 45 {
        0 - (m as i64)
    } else {
        m as i64
    }
}

pub fn read_number(
    bytes: &[u8],
    at: usize,
    width: usize,
    signed: bool,
) -> Result<Option<i64>, Refusal>
    ensures { said result ≡ number_read_at signed width bytes.now at }
{
    if !holds(bytes.len(), at, width) {
        return Err(Refusal {
            number: fault::OUTSIDE,
            place: bytes.len(),
        });
    }
    if width > 17 {
        return Err(Refusal {
            number: fault::MALFORMED,
            place: 0,
        });
    }
    if is_x(bytes, at, width) {
        return Ok(None);
    }
    if !is_number(bytes, at, width, signed) {
        return Err(Refusal {
            number: fault::MALFORMED,
            place: 0,
        });
    }
    Ok(Some(integer(bytes, at, width)))
}

// The number of a field that is one, as the size and the totals are; 0 of any other, and where its bytes are not all there.
pub fn count_at(bytes: &[u8], at: usize, width: usize) -> u64
    ensures { result ≡ count_at bytes.now at width }
{
    if !holds(bytes.len(), at, width) {
        return 0;
    }
    if width > 17 {
        return 0;
    }
    if !is_number(bytes, at, width, false) {
        return 0;
    }
    number_of(bytes, at, width)
}

// Powers of ten to 10 ^ 17.
fn power(exponent: usize) -> u64
    requires { exponent ≤ 17 }
    ensures { result ≡ 10 ^ exponent }
{
    10_u64.pow(exponent as u32)
}

// A field of the width can spell `z`.
fn spells(signed: bool, width: usize, z: i64) -> bool
    requires { (0 < width) × (width ≤ 17) }
    ensures { result ≡ spelled signed width z }
{
    let size = z.unsigned_abs();
    if z < 0 {
        if !signed {
            return false;
        }
        return size < power(width - 1);
    }
    size < power(width)
}

// Whether a number can be written in a field of the width: its digits, and a minus where it is signed and below 0.
pub fn fits_number(signed: bool, width: usize, number: Option<i64>) -> bool
    ensures { result ≡ fits_number signed width number }
{
    if width == 0 {
        return false;
    }
    if width > 17 {
        return false;
    }
    match number {
        None => true,
        Some(z) => spells(signed, width, z),
    }
}

// What stands before the digits that are left.
fn mark_of(minus: bool, v: u64) -> u8
    ensures { result ≡ mark minus v }
{
    if v != 0 {
        return 48 + ((v % 10) as u8);
    }
    if minus { 45 } else { 32 }
}

// A minus is still to be written.
fn is_due(minus: bool, v: u64) -> bool
    ensures { result ≡ still minus v }
{
    if v == 0 { false } else { minus }
}

fn put_rest(room: &mut [u8], n: usize, minus: bool, v: u64)
    requires { n ≤ length room.old }
    ensures { room.new ≡ put_rest room.old n minus v }
{
    let mut due = minus;
    let mut rest = v;
    for i in (0..n).rev() {
        room[i] = mark_of(due, rest);
        due = is_due(due, rest);
        rest = rest / 10;
    }
}

fn put_whole(room: &mut [u8], width: usize, z: i64)
    requires { (0 < width) × (width ≤ length room.old) }
    ensures { room.new ≡ put_whole room.old width z }
{
    let size = z.unsigned_abs();
    let last = width - 1;
    room[last] = 48 + ((size % 10) as u8);
    put_rest(room, last, z < 0, size / 10);
}

fn put_x(room: &mut [u8], n: usize)
    requires { n ≤ length room.old }
    ensures { room.new ≡ put_x room.old n }
{
    room[..n].fill(120);
}

fn put_number(room: &mut [u8], width: usize, number: Option<i64>)
    requires { (0 < width) × (width ≤ length room.old) }
    ensures { room.new ≡ put_number width room.old number }
{
    match number {
        None => put_x(room, width),
        Some(z) => put_whole(room, width, z),
    }
}

// Right-justified with spaces before it, and `-` only.
pub fn write_number(
    room: &mut [u8],
    width: usize,
    signed: bool,
    number: Option<i64>,
) -> Result<usize, Refusal>
    ensures { WritesNumber room.old width signed number result room.new }
{
    if !fits_number(signed, width, number) {
        return Err(Refusal {
            number: fault::MALFORMED,
            place: 0,
        });
    }
    if room.len() < width {
        return Err(Refusal {
            number: fault::ROOM,
            place: width,
        });
    }
    put_number(room, width, number);
    Ok(width)
}

// Whether a text can be written: of exactly the width, and of bytes 32 to 126.
pub fn fits_text(width: usize, text: &[u8]) -> bool
    ensures { result ≡ fits_text width text.now }
{
    if text.len() != width {
        return false;
    }
    run(text, 32, 126) == width
}

fn put_text(room: &mut [u8], text: &[u8])
    requires { length text.now ≤ length room.old }
    ensures { room.new ≡ put_text room.old text.now }
{
    // No `copy_from_slice`: it makes the archive ask for memmove, where this asks for memcpy.
    for (i, byte) in text.iter().enumerate() {
        room[i] = *byte;
    }
}

pub fn write_text(room: &mut [u8], width: usize, text: &[u8]) -> Result<usize, Refusal>
    ensures { WritesText room.old width text.now result room.new }
{
    if !fits_text(width, text) {
        return Err(Refusal {
            number: fault::MALFORMED,
            place: 0,
        });
    }
    if room.len() < width {
        return Err(Refusal {
            number: fault::ROOM,
            place: width,
        });
    }
    put_text(room, text);
    Ok(width)
}
