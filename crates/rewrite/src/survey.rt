// The records of a product that a cut keeps: what they come to, from their headers alone; and their bytes, copied.
ghost use Rattle.std.specs.Prelude.{◌≡◌, ◌+◌, ◌≤◌, length};
ghost use Rattle.parts.specs.Cut.{window};
ghost use Rattle.rewrite.specs.Keeping.{Lead, kept_at, RoomFor, PutsOne, Roomy, PutsKept};
ghost use Rattle.rewrite.specs.Surveying.{SurveyOne, Surveying, Surveyable, Surveyed};

use crate::copy::copy;
use crate::kinds::{note, slot, wide};
use crate::times::{is_within, later, sooner, time_at};
use meter::time::Time;
use record::header::size_at;

// The bytes of the SPHR and of the records that are kept, how many records these are, the earliest start and the latest stop of the MDRs.
#[derive(Clone, Copy)]
pub struct Sums {
    pub front: usize,
    pub kept: usize,
    pub records: usize,
    pub start: Option<Time>,
    pub stop: Option<Time>,
}

// The record at `at` is an auxiliary record, or an MDR whose start lies in the window.
fn is_kept(s: &[u8], first: Option<Time>, last: Option<Time>, at: usize) -> bool
    requires { Lead s.now at }
    ensures { result ≡ kept_at (window first last) s.now at }
{
    match s[at] {
        4..=7 => true,
        8 => is_within(first, last, time_at(s, at + 8)),
        _ => false,
    }
}

// What is found with the record at `at`.
fn survey_one(
    s: &[u8],
    first: Option<Time>,
    last: Option<Time>,
    at: usize,
    size: usize,
    table: &mut [u32],
    tally: &mut [usize],
    found: Sums,
) -> Sums
    requires { SurveyOne s.now (window first last) at size table.old tally.old found }
    ensures { Surveying s.now (window first last) (at + size) table.new tally.new result }
{
    let class = s[at];
    let mut next = found;
    next.records += 1;
    if class == 2 {
        tally[2] += 1;
        next.front += size;
        return next;
    }
    if !is_kept(s, first, last, at) {
        return found;
    }
    note(table, slot(class, s[at + 1], s[at + 2]), found.kept);
    tally[wide(class)] += 1;
    next.kept += size;
    if class != 8 {
        return next;
    }
    next.start = sooner(found.start, time_at(s, at + 8));
    next.stop = later(found.stop, time_at(s, at + 14));
    next
}

// What the records come to; the table gets the place of the first of each kind, and the tally the count of each class.
pub(crate) fn survey(
    s: &[u8],
    first: Option<Time>,
    last: Option<Time>,
    table: &mut [u32],
    tally: &mut [usize],
) -> Sums
    requires { Surveyable s.now table.old tally.old }
    ensures { Surveyed s.now (window first last) table.new tally.new result }
{
    let mut found = Sums {
        front: 0,
        kept: 0,
        records: 0,
        start: None,
        stop: None,
    };
    let mut at: usize = 3307;
    while at < s.len() {
        let size = size_at(s, at);
        found = survey_one(s, first, last, at, size, table, tally, found);
        at += size;
    }
    found
}

// The record at `at`, if it is kept, goes into the room from p on; the byte after it comes back.
fn put_one(
    s: &[u8],
    first: Option<Time>,
    last: Option<Time>,
    at: usize,
    size: usize,
    room: &mut [u8],
    p: usize,
) -> usize
    requires { RoomFor (window first last) s.now at size room.old p }
    ensures { PutsOne (window first last) s.now at size room.old p result room.new }
{
    if !is_kept(s, first, last, at) {
        return p;
    }
    copy(s, at, size, room, p);
    p + size
}

// The records that are kept go into the room from p on; the byte after them comes back.
pub(crate) fn put_kept(
    s: &[u8],
    first: Option<Time>,
    last: Option<Time>,
    room: &mut [u8],
    p: usize,
) -> usize
    requires { Roomy (window first last) s.now room.old p }
    ensures { PutsKept (window first last) s.now room.old p result room.new }
{
    let mut to = p;
    let mut at: usize = 3307;
    while at < s.len() {
        let size = size_at(s, at);
        to = put_one(s, first, last, at, size, room, to);
        at += size;
    }
    to
}
