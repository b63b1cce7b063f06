// The sections of a product: how many bytes each has, and of its MDRs the first defined start and the last defined stop.
ghost use Rattle.std.specs.Prelude.{◌≡◌, ◌+◌, ◌≤◌, ◌<◌, length};
ghost use Rattle.rewrite.specs.Sectioning.{Left, LeftAfter, FirstStartIs, stop_at, LaterIs, StopsOn, LastStopIs};
ghost use Rattle.rewrite.specs.Sectioning.{SectionOne, Sectioning, FirstMdr, Sectionable, Sectioned};

use crate::times::{is_undefined, time_at};
use meter::time::Time;
use record::header::size_at;

// The bytes of the SPHR, of the pointers, of the global and of the variable records; what is left are MDRs.
#[derive(Clone, Copy)]
pub struct Sections {
    pub sphr: usize,
    pub ipr: usize,
    pub global: usize,
    pub variable: usize,
    pub start: Option<Time>,
    pub stop: Option<Time>,
}

// The first defined start of the records from `from` on.
fn first_start(s: &[u8], from: usize) -> Option<Time>
    requires { Left s.now from }
    ensures { FirstStartIs s.now from result }
{
    let mut at = from;
    while at < s.len() {
        match time_at(s, at + 8) {
            Some(time) => return Some(time),
            None => at += size_at(s, at),
        }
    }
    None
}

// The stop of the record at `place`; none where that is 0.
fn stop_at(s: &[u8], place: usize) -> Option<Time>
    requires { place + 20 ≤ length s.now }
    ensures { result ≡ stop_at s.now place }
{
    if place == 0 {
        None
    } else {
        time_at(s, place + 14)
    }
}

// The place of the last record with a defined stop, with the record at `at`. A processor picks one of two values without a guess.
fn later_place(s: &[u8], place: usize, at: usize) -> usize
    requires { (0 < at) × (at + 20 ≤ length s.now) }
    ensures { LaterIs s.now place at result }
{
    if is_undefined(s, at + 14) { place } else { at }
}

// The place of the last record with a defined stop before `at`, or 0.
#[derive(Clone, Copy)]
pub struct Stopped {
    pub at: usize,
    pub place: usize,
}

// The records from `from` on that are of one size, before which the last one with a defined stop is at `before`. The next place is known
// before the size that stands there has come from memory, so the headers are read side by side.
fn stop_alike(s: &[u8], from: usize, before: usize) -> Stopped
    requires { LeftAfter s.now from before × (from < length s.now) }
    ensures { StopsOn s.now from before result }
{
    let size = size_at(s, from);
    let mut place = before;
    let mut at = from;
    while at < s.len() {
        if size_at(s, at) != size {
            return Stopped { at, place };
        }
        place = later_place(s, place, at);
        at += size;
    }
    Stopped { at, place }
}

// The last defined stop of the records from `from` on.
fn last_stop(s: &[u8], from: usize) -> Option<Time>
    requires { Left s.now from × (3307 ≤ from) }
    ensures { LastStopIs s.now from result }
{
    let mut place: usize = 0;
    let mut at = from;
    while at < s.len() {
        let stopped = stop_alike(s, at, place);
        at = stopped.at;
        place = stopped.place;
    }
    stop_at(s, place)
}

// What is found with the record at `at`, which is no MDR.
fn section_one(s: &[u8], at: usize, size: usize, found: Sections) -> Sections
    requires { SectionOne s.now at size found }
    ensures { Sectioning s.now (at + size) result }
{
    let mut next = found;
    match s[at] {
        0..=2 => next.sphr += size,
        3 => next.ipr += size,
        4 | 5 => next.global += size,
        _ => next.variable += size,
    }
    next
}

// What is found with the MDRs, which go from `at` to the end.
fn with_mdrs(s: &[u8], at: usize, found: Sections) -> Sections
    requires { FirstMdr s.now at found }
    ensures { Sectioned s.now result }
{
    Sections {
        start: first_start(s, at),
        stop: last_stop(s, at),
        ..found
    }
}

pub(crate) fn sections_of(s: &[u8]) -> Sections
    requires { Sectionable s.now }
    ensures { Sectioned s.now result }
{
    let mut found = Sections {
        sphr: 0,
        ipr: 0,
        global: 0,
        variable: 0,
        start: None,
        stop: None,
    };
    let mut at: usize = 3307;
    while at < s.len() {
        if s[at] > 7 {
            return with_mdrs(s, at, found);
        }
        let size = size_at(s, at);
        found = section_one(s, at, size, found);
        at += size;
    }
    found
}
