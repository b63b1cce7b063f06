// The arrival judge: one pass over the records' headers, in constant memory; payloads are not read.
ghost use Rattle.std.specs.Prelude.{◌≡◌, ◌+◌, ◌<◌, ◌≤◌, length};
ghost use Rattle.record.specs.Follow.{Ruled};
ghost use Rattle.judge.specs.Table.{site, Judged};
ghost use Rattle.judge.specs.Extent.{ExtentIs};
ghost use Rattle.judge.specs.Stretch.{no_stretch, StretchIs};
ghost use Rattle.judge.specs.Profile.{Meeting};
ghost use Rattle.judge.specs.Turning.{Ready, TurnedIs, refused_at, Begun, Walking, Over, WalkedIs};

use crate::header::{is_part, rank, word};
use crate::parts::{declared_size, is_fewer, totals_of};
use crate::pending::{ease, no_hold};
use crate::pointers::{Body, Pointers, Settled, close_record, no_pointers, settle};
use crate::profile::{NO_PROFILE, met_on, stride};
use crate::run::run_of;
use crate::stretch::{Stretch, no_notes, no_stretch, noted};
use calendar::{Refusal, fault};
use std::ops::ControlFlow;

// The judge's answer. It is an enum of its own: 01 ("Forms for each place") has record and field queries take the judge's enum apart by let .. else.
#[derive(Clone, Copy)]
pub enum Arrival {
    Waiting { count: usize, end: usize },
    Refused(Refusal),
}

// What is to be said of an arrival, a stretch of records of one size in it, and a byte up to which the records after the main header meet
// a profile.
#[derive(Clone, Copy)]
pub struct Walked {
    pub answer: Arrival,
    pub stretch: Stretch,
    pub met: usize,
}

#[derive(Clone, Copy)]
pub struct Surveyed {
    pub extent: Result<Option<usize>, Refusal>,
    pub stretch: Stretch,
    pub met: usize,
}

// What is left of a record that is passed: where the next one starts, its class, and the pointers.
#[derive(Clone, Copy)]
pub struct Passed {
    pub to: usize,
    pub class: u8,
    pub pointers: Pointers,
}

fn refusal(number: u8, place: usize) -> Arrival
    ensures { result ≡ refused_at number place }
{
    Arrival::Refused(Refusal { number, place })
}

// One record of the walk.
fn turn(
    s: &[u8],
    follow: &[[bool; 8]; 8],
    totals: &[usize],
    tally: &[usize],
    d: usize,
    count: usize,
    at: usize,
    prev: u8,
    w: Pointers,
) -> ControlFlow<Arrival, Passed>
    requires { Ready s.now d (site count at prev tally.now) totals.now w × Ruled follow.now }
    ensures { TurnedIs s.now (site count at prev tally.now) result }
{
    if s.len() < at + 20 {
        return ControlFlow::Break(Arrival::Waiting { count, end: at });
    }
    let h = rank(s, follow, totals, tally, d, at, prev);
    if h == 6 {
        return ControlFlow::Break(refusal(fault::BYTES_LEFT, at + 20));
    }
    if h < 12 {
        return ControlFlow::Break(refusal(h, at));
    }
    let to = at + word(s, at + 4);
    match settle(s, w, at, to, d) {
        Settled::Inside(q) => ControlFlow::Break(refusal(fault::POINTS_INSIDE, q)),
        Settled::Other(q) => ControlFlow::Break(refusal(fault::POINTS_AT_OTHER, q)),
        Settled::Clear(v) => match close_record(s, v, at, to, d) {
            Body::Part => ControlFlow::Break(Arrival::Waiting { count, end: at }),
            Body::Six => ControlFlow::Break(refusal(fault::BYTES_LEFT, to)),
            Body::BadTarget => ControlFlow::Break(refusal(fault::TARGET, at)),
            Body::Entire(pointers) => ControlFlow::Continue(Passed {
                to,
                class: s[at],
                pointers,
            }),
        },
    }
}

// The end of the walk, where each byte of d has come.
fn ended(
    s: &[u8],
    totals: &[usize; 9],
    tally: &[usize; 9],
    d: usize,
    count: usize,
    prev: u8,
) -> Arrival
    requires { Over s.now d (site count d prev tally.now) totals.now }
    ensures { Judged s.now result }
{
    if is_fewer(totals, tally) {
        return refusal(fault::TOO_FEW, d);
    }
    if d < s.len() {
        return refusal(fault::BEYOND, d);
    }
    Arrival::Waiting { count, end: d }
}

// The walk over the records after the main header, with a room for the pointers that are still to come.
fn walk_on(
    s: &[u8],
    profile: &[[u8; 6]],
    totals: &[usize; 9],
    held: &mut [usize],
    d: usize,
) -> Walked
    requires { Walking s.now totals.now d }
    ensures { WalkedIs profile.now s.now result }
{
    let mut tally = [0usize, 1, 0, 0, 0, 0, 0, 0, 0];
    let mut count: usize = 1;
    let mut at: usize = 3307;
    let mut prev: u8 = 1;
    let mut w = no_pointers(d);
    let mut hold = no_hold();
    let mut notes = no_notes(at);
    let mut met = at;
    let most = stride(profile);
    // Once: a const array is copied where it is named.
    let follow = record::follow::FOLLOW;
    while at < d {
        hold = ease(s, held, hold, w, at, d);
        w.due = hold.due;
        match turn(s, &follow, totals, &tally, d, count, at, prev, w) {
            ControlFlow::Break(answer) => {
                let stretch = notes.longest;
                return Walked {
                    answer,
                    stretch,
                    met,
                };
            }
            ControlFlow::Continue(passed) => {
                let k = passed.class as usize;
                let n = tally[k] + 1;
                let size = passed.to - at;
                let run = run_of(
                    s,
                    &follow,
                    passed.class,
                    size,
                    passed.to,
                    passed.pointers.due,
                    d,
                    most.min(totals[k] - n),
                );
                tally[k] = n + run.count;
                count += 1 + run.count;
                notes = noted(notes, at, size, run.end, 1 + run.count);
                met = met_on(s, profile, met, at, size, run.end);
                at = run.end;
                prev = passed.class;
                w = passed.pointers;
            }
        }
    }
    let stretch = notes.longest;
    Walked {
        answer: ended(s, totals, &tally, d, count, prev),
        stretch,
        met,
    }
}

// The walk with a room for N pointers.
fn walk_in<const N: usize>(s: &[u8], profile: &[[u8; 6]], totals: &[usize; 9], d: usize) -> Walked
    requires { Walking s.now totals.now d × (N ≤ 16384) }
    ensures { WalkedIs profile.now s.now result }
{
    let mut held = [0usize; N];
    walk_on(s, profile, totals, &mut held, d)
}

// The walk of a product of many pointers. A large room is a large frame, which a call touches page by page. The compiler puts none into
// a function that calls itself, and such a function into no other, so that products of few pointers have a small frame. It calls itself
// for each million of pointers: a total has six digits, so it never does, which the compiler cannot know.
fn walk_far(s: &[u8], profile: &[[u8; 6]], totals: &[usize; 9], d: usize, millions: usize) -> Walked
    requires { Walking s.now totals.now d }
    ensures { WalkedIs profile.now s.now result }
{
    if millions == 0 {
        if totals[3] <= 2048 {
            return walk_in::<2048>(s, profile, totals, d);
        }
        return walk_in::<16384>(s, profile, totals, d);
    }
    let walked = walk_far(s, profile, totals, d, millions - 1);
    let answer = walked.answer;
    let stretch = walked.stretch;
    let met = walked.met;
    Walked {
        answer,
        stretch,
        met,
    }
}

// The room: a single pointer is in order, and needs none. It is made as large as the pointers ask, since it is cleared whether they are in
// order or not.
fn walk(s: &[u8], profile: &[[u8; 6]]) -> Walked
    requires { Begun s.now }
    ensures { WalkedIs profile.now s.now result }
{
    let d = declared_size(s);
    if is_part(3307, d) {
        return at_once(refusal(fault::BYTES_LEFT, 3307));
    }
    let totals = totals_of(s);
    if totals[3] < 2 {
        return walk_in::<1>(s, profile, &totals, d);
    }
    if totals[3] <= 256 {
        return walk_in::<256>(s, profile, &totals, d);
    }
    let millions = totals[3] / 1000000;
    walk_far(s, profile, &totals, d, millions)
}

// An answer that no walk gave.
fn at_once(answer: Arrival) -> Walked
    ensures { (result.answer ≡ answer) × (result.stretch ≡ no_stretch 0) × (result.met ≡ 3307) }
{
    Walked {
        answer,
        stretch: no_stretch(0),
        met: 3307,
    }
}

fn judged(s: &[u8], profile: &[[u8; 6]]) -> Walked
    ensures { WalkedIs profile.now s.now result }
{
    match mphr::faults::header_fault(s) {
        Err(r) => at_once(Arrival::Refused(r)),
        Ok(()) => {
            if s.len() < 3307 {
                return at_once(Arrival::Waiting { count: 0, end: 0 });
            }
            walk(s, profile)
        }
    }
}

// What is to be said of an arrival: a refusal of 1 to 16, or waiting, with the whole records and the end of the last.
pub fn judge_arrival(s: &[u8]) -> Arrival
    ensures { Judged s.now result }
{
    let none: usize = 0;
    judged(s, &NO_PROFILE[..none]).answer
}

// The same refusals; else whether each byte has come of the main header and of the size that it declares.
fn extent_of(s: &[u8], answer: Arrival) -> Result<Option<usize>, Refusal>
    requires { Judged s.now answer }
    ensures { ExtentIs s.now result }
{
    match answer {
        Arrival::Refused(r) => Err(r),
        Arrival::Waiting { count, end: _ } => {
            if count == 0 {
                return Ok(None);
            }
            if s.len() < declared_size(s) {
                return Ok(None);
            }
            Ok(Some(count))
        }
    }
}

// The extent of an arrival; a stretch of records of one size in it, whose sizes need not be read again; and a byte up to which its records
// after the main header meet the profile, which need not be asked again.
pub fn survey(s: &[u8], profile: &[[u8; 6]]) -> Surveyed
    ensures { ExtentIs s.now result.extent × StretchIs s.now result.stretch
        × Meeting profile.now s.now 3307 result.met }
{
    let walked = judged(s, profile);
    let answer = walked.answer;
    let stretch = walked.stretch;
    let met = walked.met;
    Surveyed {
        extent: extent_of(s, answer),
        stretch,
        met,
    }
}

pub fn judge_extent(s: &[u8]) -> Result<Option<usize>, Refusal>
    ensures { ExtentIs s.now result }
{
    let none: usize = 0;
    survey(s, &NO_PROFILE[..none]).extent
}
