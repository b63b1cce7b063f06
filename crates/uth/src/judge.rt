// Whether the segments and their blocks tile the file: faults in file order, and how many blocks there are.
ghost use Rattle.std.specs.Prelude.{◌≡◌, Err, ◌+◌, ◌≤◌, ◌<◌, length};
ghost use Rattle.calendar.specs.Said.{said};
ghost use Rattle.meter.specs.Integer.{twos, half_of};
ghost use Rattle.uth.specs.Layout.{is_grid, is_some};
ghost use Rattle.uth.specs.Judge.{segment_at, judge_from, judge_of};

use crate::value::word;
use calendar::{Refusal, fault};

pub(crate) fn refused(number: u8, place: usize) -> Result<usize, Refusal>
    ensures { result ≡ Err (record { number = number; place = place }) }
{
    Err(Refusal { number, place })
}

fn is_grid(field: usize) -> bool
    requires { field < 4294967296 }
    ensures { result ≡ is_grid (twos (half_of 4) field) }
{
    if field < 1 {
        return false;
    }
    field <= 80
}

fn is_some(field: usize) -> bool
    requires { field < 4294967296 }
    ensures { result ≡ is_some (twos (half_of 4) field) }
{
    if field < 1 {
        return false;
    }
    field < 0x8000_0000
}

// The segment that starts at `p`, its fields as they come. N has 32 bits, so its blocks have a size of less than 40.
fn segment(bytes: &[u8], p: usize) -> Result<usize, Refusal>
    requires { p ≤ length bytes.now }
    ensures { said result ≡ segment_at bytes.now p }
{
    let left = bytes.len() - p;
    if left < 4 {
        return refused(fault::UTH_CUT, bytes.len());
    }
    if !is_grid(word(bytes, p)) {
        return refused(fault::UTH_GRID, p);
    }
    if left < 8 {
        return refused(fault::UTH_CUT, bytes.len());
    }
    if !is_grid(word(bytes, p + 4)) {
        return refused(fault::UTH_GRID, p + 4);
    }
    if left < 36 {
        return refused(fault::UTH_CUT, bytes.len());
    }
    let n = word(bytes, p + 32);
    if !is_some(n) {
        return refused(fault::UTH_BLOCKS, p + 32);
    }
    if left - 36 < 72 * n {
        return refused(fault::UTH_CUT, bytes.len());
    }
    Ok(n)
}

// The m segments from byte 642 on.
fn judge_segments(bytes: &[u8], m: usize) -> Result<usize, Refusal>
    requires { 642 ≤ length bytes.now }
    ensures { said result ≡ judge_from bytes.now m 642 0 }
{
    let mut p: usize = 642;
    let mut count: usize = 0;
    for _ in 0..m {
        let n = segment(bytes, p)?;
        p = p + 36 + 72 * n;
        count += n;
    }
    if p < bytes.len() {
        return refused(fault::UTH_LEFT, p);
    }
    Ok(count)
}

// How many blocks a file has that is read.
pub fn judge(bytes: &[u8]) -> Result<usize, Refusal>
    ensures { said result ≡ judge_of bytes.now }
{
    if bytes.len() < 642 {
        return refused(fault::UTH_SHORT, bytes.len());
    }
    let m = word(bytes, 614);
    if m > 0x7fff_ffff {
        return refused(fault::UTH_SEGMENTS, 614);
    }
    judge_segments(bytes, m)
}
