// Runs of records like the last one: of the same class and size, with a known group and right times, before any pointer is due and before
// the end. All that is left to look at of such a record is looked at here, and the place of the next is known before its size has come
// from memory.
ghost use Rattle.std.specs.Prelude.{◌≡◌, ◌+◌, ◌≤◌, true, length};
ghost use Rattle.record.specs.Header.{is_class};
ghost use Rattle.record.specs.Follow.{Ruled};
ghost use Rattle.judge.specs.Run.{Liking, LikeIs, RunIs};

use crate::header::{may_follow, word};

// How many records, and where the last ends.
#[derive(Clone, Copy)]
pub struct Run {
    pub count: usize,
    pub end: usize,
}

// The lesser of two numbers: `min`, with its promise in plain numbers.
pub fn lesser(a: usize, b: usize) -> usize
    ensures { (result ≤ a) × (result ≤ b) × (a ≤ b → result ≡ a) × (b ≤ a → result ≡ b) }
{
    a.min(b)
}

// Records of the class and the size can be a run.
fn is_run(class: u8, size: usize, d: usize) -> bool
    ensures { result ≡ true → Liking class size × (20 ≤ d) }
{
    if class == 3 {
        return false;
    }
    if size < 20 {
        return false;
    }
    if d < 20 {
        return false;
    }
    record::header::is_class(class)
}

// The record at `at` is like one of the class and the size.
fn is_like(s: &[u8], follow: &[[bool; 8]; 8], class: u8, size: usize, at: usize) -> bool
    requires { Liking class size × (at + 20 ≤ length s.now) }
    ensures { result ≡ true → Ruled follow.now → LikeIs s.now class size at }
{
    if word(s, at + 4) != size {
        return false;
    }
    if s[at] != class {
        return false;
    }
    if !may_follow(follow, class, s[at]) {
        return false;
    }
    record::header::is_group(s[at + 1]) & crate::times::surely_stand(s, at)
}

// A record of the size fits between `at` and the limit, and the one at `at` has that size. Where sizes differ from each record to the next,
// this is all that is done for a run.
fn is_next(s: &[u8], size: usize, at: usize, limit: usize) -> bool
    requires { (20 ≤ size) × (limit ≤ length s.now) }
    ensures { result ≡ true → at + size ≤ limit }
{
    if limit < at {
        return false;
    }
    if limit - at < size {
        return false;
    }
    word(s, at + 4) == size
}

// The run of records of the class and the size from `at` on, at most `most` of them: all have come, no pointer is due before the end of
// each, and 20 bytes of d are left there. A pointer record begins none, since each has a target of its own.
pub fn run_of(
    s: &[u8],
    follow: &[[bool; 8]; 8],
    class: u8,
    size: usize,
    at: usize,
    due: usize,
    d: usize,
    most: usize,
) -> Run
    ensures { Ruled follow.now → RunIs s.now class size due d most at result }
{
    let mut end = at;
    if !is_run(class, size, d) {
        return Run { count: 0, end };
    }
    let limit = due.min(s.len()).min(d - 20);
    if !is_next(s, size, at, limit) {
        return Run { count: 0, end };
    }
    for count in 0..most {
        let next = end + size;
        if limit < next {
            return Run { count, end };
        }
        if !is_like(s, follow, class, size, end) {
            return Run { count, end };
        }
        end = next;
    }
    Run { count: most, end }
}
