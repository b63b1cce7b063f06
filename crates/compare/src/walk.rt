// The records of a cut, one after the other, against what is left of the original: a place for its SPHR and auxiliary records, and one
// for its MDRs. Both places only go on, so no record of either product is compared twice.
ghost use Rattle.std.specs.Prelude.{◌≡◌};
ghost use Rattle.compare.specs.Walking.{fixed_class, Fixing, NextIs, Seeking, EarliestIs, FixedIs, Turning, TurnedIs, Both, RecordsIs};

use crate::same::is_record;
use record::header::size_at;

// Where the walk goes on in the original.
#[derive(Clone, Copy)]
struct Places {
    fixed: usize,
    mdr: usize,
}

// An SPHR or an auxiliary record: neither a pointer nor an MDR.
fn is_fixed(class: u8) -> bool
    ensures { result ≡ fixed_class class }
{
    class != 3 && class != 8
}

// The first record from `from` on that is neither a pointer nor an MDR, or the end.
fn next_fixed(original: &[u8], from: usize) -> usize
    requires { Fixing original.now from }
    ensures { NextIs original.now from result }
{
    let mut at = from;
    while at < original.len() {
        if is_fixed(original[at]) {
            return at;
        }
        at += size_at(original, at);
    }
    at
}

// "SPHR and auxiliary records against the original's next such".
fn take_next(original: &[u8], from: usize, cut: &[u8], at: usize, size: usize) -> Option<usize>
    requires { Seeking original.now from cut.now at size }
    ensures { FixedIs original.now from cut.now at size result }
{
    let next = next_fixed(original, from);
    if next < original.len() && is_record(original, next, cut, at, size) {
        Some(next + size)
    } else {
        None
    }
}

// "each MDR taking the earliest match left".
fn take_earliest(original: &[u8], from: usize, cut: &[u8], at: usize, size: usize) -> Option<usize>
    requires { Seeking original.now from cut.now at size }
    ensures { EarliestIs original.now from cut.now at size result }
{
    let mut next = from;
    while next < original.len() {
        if is_record(original, next, cut, at, size) {
            return Some(next + size);
        }
        next += size_at(original, next);
    }
    None
}

// A turn, at the cut's record of `size` bytes at `at`: where the walk goes on, if the record is matched.
fn turn(original: &[u8], from: Places, cut: &[u8], at: usize, size: usize) -> Option<Places>
    requires { Turning original.now from cut.now at size }
    ensures { TurnedIs original.now from cut.now at size result }
{
    match cut[at] {
        3 => Some(from),
        8 => {
            let mdr = take_earliest(original, from.mdr, cut, at, size)?;
            Some(Places { mdr, ..from })
        }
        _ => {
            let fixed = take_next(original, from.fixed, cut, at, size)?;
            Some(Places { fixed, ..from })
        }
    }
}

// Where the records of the cut are no longer the original's, if that comes.
pub(crate) fn compare_records(original: &[u8], cut: &[u8]) -> Option<usize>
    requires { Both original.now cut.now }
    ensures { RecordsIs original.now cut.now result }
{
    let mut at: usize = 3307;
    let mut places = Places {
        fixed: 3307,
        mdr: 3307,
    };
    while at < cut.len() {
        let size = size_at(cut, at);
        let Some(next) = turn(original, places, cut, at, size) else {
            return Some(at);
        };
        places = next;
        at += size;
    }
    if next_fixed(original, places.fixed) < original.len() {
        return Some(at);
    }
    None
}
