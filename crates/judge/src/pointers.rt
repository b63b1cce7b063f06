// The pointer records met so far, looked through only where one may point at the record at hand; in linear time where their targets never
// descend, as 002 orders them.
ghost use Rattle.std.specs.Prelude.{◌≡◌, ◌+◌, ◌<◌, ◌≤◌, true, length, ◌≢◌};
ghost use Rattle.mphr.specs.Table.{declared};
ghost use Rattle.judge.specs.Table.{Target};
ghost use Rattle.judge.specs.Step.{FirstPointer, Looking, LookIs, Search, Kept, NextIs, Settling, SettledIs, Follows};
ghost use Rattle.judge.specs.Step.{no_pointers, JoinedIs, BodyIs, Bodied, TargetIs};

use crate::header::{is_part, triple, word};

// What is known of the pointer records met so far: where the last of them ends; a byte before which none of them points further on;
// the first that does; the last one's target, and whether the targets have never descended.
#[derive(Clone, Copy)]
pub struct Pointers {
    pub end: usize,
    pub due: usize,
    pub from: usize,
    pub last: usize,
    pub rising: bool,
}

// What the pointers say of a record: one points inside it; one points at it and names another kind; or neither, and then what is
// known of those that point past it.
#[derive(Clone, Copy)]
pub enum Settled {
    Inside(usize),
    Other(usize),
    Clear(Pointers),
}

// What the body of a record comes to: it has not all come; 1 to 19 bytes are left after it; its target is bad; or it is whole.
#[derive(Clone, Copy)]
pub enum Body {
    Part,
    Six,
    BadTarget,
    Entire(Pointers),
}

// More than each number of three bytes.
pub(crate) const ANY: usize = 16_777_216;

// What is known before the first of them.
pub(crate) fn no_pointers(d: usize) -> Pointers
    ensures { result ≡ no_pointers d }
{
    Pointers {
        end: 3307,
        due: d,
        from: 3307,
        last: 0,
        rising: true,
    }
}

// What a record is to a search: no pointer, one that is not looked for, the one that is, or past it.
#[derive(Clone, Copy)]
pub enum Look {
    Pass,
    Miss,
    Found,
    Stop,
}

// Whether the record at q is a pointer whose target is from lo up to hi and of another kind than `kind`. Where the targets never
// descend, one that is past hi ends the search.
pub(crate) fn look_at(s: &[u8], q: usize, lo: usize, hi: usize, kind: usize, rising: bool) -> Look
    requires { Looking s.now q }
    ensures { LookIs s.now q lo hi kind rising result }
{
    if s[q] != 3 {
        return Look::Pass;
    }
    let target = word(s, q + 23);
    if target < lo {
        return Look::Miss;
    }
    if hi <= target {
        if rising {
            return Look::Stop;
        }
        return Look::Miss;
    }
    if triple(s, q + 20) == kind {
        return Look::Miss;
    }
    Look::Found
}

// The first such pointer up to `end`, or 0, where no pointer stands. It is looked for from the cursor on.
fn pointer(
    s: &[u8],
    from: usize,
    end: usize,
    rising: bool,
    lo: usize,
    hi: usize,
    kind: usize,
) -> usize
    requires { Search s.now from end rising lo hi }
    ensures { FirstPointer s.now end lo hi kind result }
{
    let mut q: usize = from;
    while q < end {
        match look_at(s, q, lo, hi, kind, rising) {
            Look::Found => {
                return q;
            }
            Look::Stop => {
                return 0;
            }
            Look::Miss => {
                q += 27;
            }
            Look::Pass => {
                q += word(s, q + 4);
            }
        }
    }
    0
}

// The pointers, once those that point before `to` are done with. Where their targets are in no order the next record has to look too.
fn follow(s: &[u8], w: Pointers, to: usize, d: usize) -> Pointers
    requires { Search s.now w.from w.end w.rising to d × (d ≡ declared s.now) }
    ensures { Follows s.now w to result }
{
    let mut v = w;
    if !w.rising {
        v.due = to;
        return v;
    }
    let q = pointer(s, w.from, w.end, w.rising, to, d, ANY);
    if q == 0 {
        v.due = d;
        v.from = w.end;
        return v;
    }
    v.due = word(s, q + 23);
    v.from = q;
    v
}

// The plain case, in two looks: the targets never descend, the pointer at the cursor names the record from `at` up to `to`, and the record
// right after it is a pointer further on, whose place this is; or 0.
fn next_after(s: &[u8], w: Pointers, at: usize, to: usize) -> usize
    requires { Kept s.now at w × (at + 20 ≤ length s.now) }
    ensures { (result ≢ 0) → NextIs s.now w at to result }
{
    if !w.rising {
        return 0;
    }
    let q = w.from;
    let next = q + 27;
    if w.end <= next {
        return 0;
    }
    if s[q] != 3 {
        return 0;
    }
    if word(s, q + 23) != at {
        return 0;
    }
    if triple(s, q + 20) != triple(s, at) {
        return 0;
    }
    if s[next] != 3 {
        return 0;
    }
    if word(s, next + 23) < to {
        return 0;
    }
    next
}

// The pointers are looked through only where one may point at the record.
pub(crate) fn settle(s: &[u8], w: Pointers, at: usize, to: usize, d: usize) -> Settled
    requires { Settling s.now w at to d }
    ensures { SettledIs s.now w at to result }
{
    if to <= w.due {
        return Settled::Clear(w);
    }
    let next = next_after(s, w, at, to);
    if next != 0 {
        let mut v = w;
        v.due = word(s, next + 23);
        v.from = next;
        return Settled::Clear(v);
    }
    let inside = pointer(s, w.from, w.end, w.rising, at + 1, to, ANY);
    if inside != 0 {
        return Settled::Inside(inside);
    }
    let other = pointer(s, w.from, w.end, w.rising, at, at + 1, triple(s, at));
    if other != 0 {
        return Settled::Other(other);
    }
    Settled::Clear(follow(s, w, to, d))
}

// The target of the pointer record from `at` up to `to`.
fn is_target(s: &[u8], at: usize, to: usize, d: usize) -> bool
    requires { Bodied s.now at to d × (to ≡ at + 27) × (to ≤ length s.now) }
    ensures { TargetIs s.now at result }
{
    if s[at + 20] < 4 {
        return false;
    }
    if 8 < s[at + 20] {
        return false;
    }
    let target = word(s, at + 23);
    if target < to {
        return false;
    }
    target + 20 <= d
}

// The pointers with one more, which ends at `to`.
fn joined(v: Pointers, to: usize, target: usize) -> Pointers
    ensures { JoinedIs v to target result }
{
    let mut u = v;
    u.end = to;
    u.last = target;
    if target < v.due {
        u.due = target;
    }
    if target < v.last {
        u.rising = false;
    }
    u
}

// What comes after the header of the record from `at` up to `to`.
pub(crate) fn close_record(s: &[u8], v: Pointers, at: usize, to: usize, d: usize) -> Body
    requires { Bodied s.now at to d }
    ensures { BodyIs s.now at to v result }
{
    if s.len() < to {
        return Body::Part;
    }
    if is_part(to, d) {
        return Body::Six;
    }
    if s[at] != 3 {
        return Body::Entire(v);
    }
    if !is_target(s, at, to, d) {
        return Body::BadTarget;
    }
    Body::Entire(joined(v, to, word(s, at + 23)))
}
