// The first of the faults 1 to 5 and 10 that an arrival shows of its main product header: one pass over its lines, which stops at the
// first line that has not wholly come, and goes on from there where it is asked again.
ghost use Rattle.std.specs.Prelude.{◌≡◌, ◌+◌, ◌*◌, ◌≤◌, ◌<◌, length, get_or};
ghost use Rattle.meter.specs.Integer.{be_at};
ghost use Rattle.mphr.specs.Layout.{names, widths, kinds, width_of, line_start};
ghost use Rattle.mphr.specs.Table.{headed, named, framed, total, sum, FirstIs};
ghost use Rattle.mphr.specs.Resumed.{Resumes, ReachedIs};
ghost use Rattle.mphr.specs.Turning.{AlikeIs, Numbered, Later, Counts, Ready, Past, TurnedIs, refused_at};

use crate::layout::{KINDS, NAMES, WIDTHS, kind_at, start, width_at};
use calendar::{Refusal, fault};
use std::ops::ControlFlow;
use text::{Kind, count_at};

// The line that is under way, and where it ends.
#[derive(Clone, Copy)]
pub struct Line {
    pub line: usize,
    pub end: usize,
}

fn is_headed(s: &[u8]) -> bool
    requires { 20 ≤ length s.now }
    ensures { result ≡ headed s.now }
{
    if s[0] != 1 {
        return false;
    }
    if s[1] != 0 {
        return false;
    }
    if s[2] != 0 {
        return false;
    }
    match meter::integer::read_unsigned(s, 4, 4) {
        Ok(size) => size == 3307,
        Err(_) => false,
    }
}

pub(crate) fn wide(b: u8) -> u64
    ensures { (result ≡ b) × (result < 256) }
{
    b as u64
}

// The number in the 4 bytes from `at` on.
fn four(s: &[u8], at: usize) -> u64
    requires { at + 4 ≤ length s.now }
    ensures { (result ≡ be_at s.now at 4) × (result < 4294967296) }
{
    ((wide(s[at]) * 256 + wide(s[at + 1])) * 256 + wide(s[at + 2])) * 256 + wide(s[at + 3])
}

// The number in the 8 bytes from `at` on, which is one load.
pub(crate) fn eight(s: &[u8], at: usize) -> u64
    requires { at + 8 ≤ length s.now }
    ensures { result ≡ be_at s.now at 4 * 4294967296 + be_at s.now (at + 4) 4 }
{
    four(s, at) * 4294967296 + four(s, at + 4)
}

// The number in the 2 bytes from `at` on.
fn two(s: &[u8], at: usize) -> u64
    requires { at + 2 ≤ length s.now }
    ensures { result ≡ get_or s.now at 0 * 256 + get_or s.now (at + 1) 0 }
{
    wide(s[at]) * 256 + wide(s[at + 1])
}

// The ten bytes of s from i on are those of t from j on.
fn is_alike(s: &[u8], i: usize, t: &[u8], j: usize) -> bool
    requires { (i + 10 ≤ length s.now) × (j + 10 ≤ length t.now) }
    ensures { AlikeIs s.now t.now i j result }
{
    if eight(s, i) != eight(t, j) {
        return false;
    }
    two(s, i + 8) == two(t, j + 8)
}

fn is_named(s: &[u8], table: &[u8], k: usize, at: usize) -> bool
    requires { (k < 72) × (at ≡ line_start k) × (at + 30 ≤ length s.now) × (table.now ≡ names) }
    ensures { result ≡ named s.now k }
{
    for i in 0..3 {
        if !is_alike(s, at + 10 * i, table, 30 * k + 10 * i) {
            return false;
        }
    }
    true
}

fn is_framed(s: &[u8], table: &[u8], k: usize, at: usize, w: usize) -> bool
    requires { (k < 72) × (at ≡ line_start k) × (w ≡ width_of k) × (at + w + 33 ≤ length s.now) × (table.now ≡ names) }
    ensures { result ≡ framed s.now k }
{
    if !is_named(s, table, k, at) {
        return false;
    }
    if s[at + 30] != 61 {
        return false;
    }
    if s[at + 31] != 32 {
        return false;
    }
    s[at + 32 + w] == 10
}

// The total of a class, or of all records at 0.
fn total_of(s: &[u8], j: usize) -> u64
    requires { j ≤ 8 }
    ensures { (Counts s.now → result ≡ total s.now j) × (result < 1000000) }
{
    count_at(s, 2675 + 39 * j, 6)
}

fn sum_of(s: &[u8]) -> u64
    ensures { Counts s.now → result ≡ sum s.now 8 }
{
    let mut v: u64 = 0;
    for j in 1..9 {
        v = v + total_of(s, j);
    }
    v
}

// The faults of the size and of the totals, where line k is the last that they look at.
fn later(s: &[u8], k: usize) -> usize
    ensures { Numbered s.now k → Later s.now k result }
{
    if k == 28 {
        let d = count_at(s, 1485, 11);
        if d < 3307 {
            return 4;
        }
        if 2147483647 < d {
            return 4;
        }
        return 0;
    }
    if k == 63 {
        if total_of(s, 1) != 1 {
            return 5;
        }
        if 1 < total_of(s, 2) {
            return 5;
        }
        if total_of(s, 0) != sum_of(s) {
            return 5;
        }
        return 0;
    }
    0
}

fn refused(number: u8, place: usize) -> ControlFlow<Result<Line, Refusal>, usize>
    ensures { result ≡ refused_at number place }
{
    ControlFlow::Break(Err(Refusal { number, place }))
}

// One line: the answer where it is the last that is looked at, or where the next one starts.
fn turn(
    s: &[u8],
    table: &[u8],
    width_table: &[u8; 72],
    kind_table: &[Kind; 72],
    k: usize,
    at: usize,
) -> ControlFlow<Result<Line, Refusal>, usize>
    requires { Ready s.now k at × (table.now ≡ names) × (width_table.now ≡ widths) × (kind_table.now ≡ kinds) }
    ensures { TurnedIs s.now k result }
{
    let w = width_at(width_table, k);
    let to = at + w + 33;
    if s.len() < to {
        return ControlFlow::Break(Ok(Line { line: k, end: to }));
    }
    if !is_framed(s, table, k, at, w) {
        return refused(fault::LINE, at);
    }
    if !text::is_value(s, at + 32, w, kind_at(kind_table, k)) {
        return refused(fault::VALUE, at + 32);
    }
    let h = later(s, k);
    if h == 4 {
        return refused(fault::DECLARED_SIZE, 1485);
    }
    if h == 5 {
        return refused(fault::TOTALS, 2675);
    }
    ControlFlow::Continue(to)
}

// The lines from `line` on, which starts at `from`.
fn walk(s: &[u8], line: usize, from: usize) -> Result<Line, Refusal>
    requires { Ready s.now line from }
    ensures { Past s.now line → ReachedIs s.now result }
{
    // Once: a const array is copied where it is named.
    let table = NAMES;
    let width_table = WIDTHS;
    let kind_table = KINDS;
    let mut at = from;
    for k in line..72 {
        match turn(s, &table, &width_table, &kind_table, k, at) {
            ControlFlow::Break(r) => {
                return r;
            }
            ControlFlow::Continue(to) => {
                at = to;
            }
        }
    }
    Ok(Line {
        line: 72,
        end: 3307,
    })
}

// The record header and the lines.
fn from_first(s: &[u8]) -> Result<Line, Refusal>
    ensures { ReachedIs s.now result }
{
    if s.len() < 20 {
        return Ok(Line { line: 0, end: 20 });
    }
    if !is_headed(s) {
        return Err(Refusal {
            number: fault::FIRST_HEADER,
            place: 0,
        });
    }
    if !record::times::times_stand(s, 0) {
        return Err(Refusal {
            number: fault::RECORD_TIMES,
            place: 0,
        });
    }
    walk(s, 0, 20)
}

// The lines from `line` on, where the bytes before it are right; the record header and all lines where `line` is 0, or has not come.
pub fn lines_from(s: &[u8], line: usize) -> Result<Line, Refusal>
    ensures { Resumes s.now line → ReachedIs s.now result }
{
    if line == 0 {
        return from_first(s);
    }
    if 72 <= line {
        return from_first(s);
    }
    let from = start(line);
    if s.len() < from {
        return from_first(s);
    }
    walk(s, line, from)
}

// The first fault that an arrival shows of the main product header: shown earliest, then of the lowest number, then at the lowest place.
pub fn header_fault(s: &[u8]) -> Result<(), Refusal>
    ensures { FirstIs s.now result }
{
    lines_from(s, 0)?;
    Ok(())
}
