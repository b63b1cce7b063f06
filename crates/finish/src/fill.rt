// The rows of a product's records, one after the other. Where sizes are known they are not read again.
ghost use Rattle.std.specs.Prelude.{◌≤◌, ◌<◌};
ghost use Rattle.judge.specs.Stretch.{StretchIs};
ghost use Rattle.finish.specs.Fill.{Onward, Unread, Read, Stretched, Empty, Fills};

use crate::row::put_row;
use judge::stretch::Stretch as Even;
use record::header::size_at;

// How many rows are in the list, and where the next record starts.
#[derive(Clone, Copy)]
pub struct Reached {
    pub count: usize,
    pub end: usize,
}

// The rows of the records from `at` on that are of one size go into the list, from place k on, as far as they are before `until`. The
// next start is known before the size that stands there has come from memory, so the headers are read side by side.
fn fill_alike(
    s: &[u8],
    rows: &mut [[u32; 7]],
    counts: &mut [u32],
    k: usize,
    at: usize,
    until: usize,
) -> Reached
    requires { Unread s.now rows.old counts.old k at until }
    ensures { Stretched s.now rows.old counts.old k at result rows.new counts.new }
{
    let size = size_at(s, at);
    let mut count = k;
    let mut end = at;
    while end < until {
        if size_at(s, end) != size {
            return Reached { count, end };
        }
        put_row(s, rows, counts, count, end, size);
        count += 1;
        end += size;
    }
    Reached { count, end }
}

// Those of the records from `at` up to `end`, whose sizes are known: not one is read.
fn fill_even(
    s: &[u8],
    rows: &mut [[u32; 7]],
    counts: &mut [u32],
    k: usize,
    at: usize,
    size: usize,
    end: usize,
) -> Reached
    requires { Read s.now rows.old counts.old k at size end }
    ensures { Stretched s.now rows.old counts.old k at result rows.new counts.new }
{
    let mut count = k;
    let mut i = at;
    while i < end {
        put_row(s, rows, counts, count, i, size);
        count += 1;
        i += size;
    }
    Reached { count, end: i }
}

// Up to where sizes have to be read from `at` on: to where those that are known begin, or to the end.
fn unknown_until(at: usize, from: usize, len: usize) -> usize
    requires { at < len }
    ensures { (at < result) × (result ≤ len) }
{
    if from <= at {
        return len;
    }
    if len < from {
        return len;
    }
    from
}

// The next records from `at` on: those whose sizes are known, or some of one size before them.
fn fill_some(
    s: &[u8],
    rows: &mut [[u32; 7]],
    counts: &mut [u32],
    k: usize,
    at: usize,
    even: Even,
) -> Reached
    requires { Onward s.now rows.old counts.old k at × StretchIs s.now even }
    ensures { Stretched s.now rows.old counts.old k at result rows.new counts.new }
{
    let end = even.end.min(s.len());
    if at == even.from {
        if at < end {
            return fill_even(s, rows, counts, k, at, even.size, end);
        }
    }
    fill_alike(
        s,
        rows,
        counts,
        k,
        at,
        unknown_until(at, even.from, s.len()),
    )
}

// The rows of all records go into the list, the main header's first; their number comes back. The counters are 0, and the sizes from
// `even.from` up to `even.end` are known.
pub(crate) fn fill(s: &[u8], rows: &mut [[u32; 7]], counts: &mut [u32], even: Even) -> usize
    requires { Empty s.now rows.old counts.old × StretchIs s.now even }
    ensures { Fills s.now rows.old result rows.new }
{
    let mut k: usize = 0;
    let mut at: usize = 0;
    while at < s.len() {
        let reached = fill_some(s, rows, counts, k, at, even);
        k = reached.count;
        at = reached.end;
    }
    k
}
