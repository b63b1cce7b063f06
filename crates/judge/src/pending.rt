// The nearest of the pointers whose targets are still to come, in a lent room of any size and in the order of their targets: where these
// are in no order in the product, a record asks the next of the held and not all pointers.
ghost use Rattle.std.specs.Prelude.{◌≡◌, ◌+◌, ◌*◌, ◌<◌, ◌≤◌, length, slice_index, take, drop};
ghost use Rattle.std.specs.List.Sorted.{IsPermutation, IsNonDecreasing};
ghost use Rattle.mphr.specs.Table.{declared};
ghost use Rattle.judge.specs.Step.{any, Scan, Kept};
ghost use Rattle.judge.specs.Pending.{key_of, EntryIs, PutIs, GatheredIs, SkippedIs, no_hold, nothing_held, ReadyIs, HoldIs, EasedIs};

use crate::header::{triple, word};
use crate::pointers::{ANY, Look, Pointers, look_at};
use crate::reach::edge_of;

// What is held: the first that is still to come, how many there are, the edge below which all are held, the end of the last pointer that
// was looked at, and a byte before which no pointer tells against the record at hand or points past it.
#[derive(Clone, Copy)]
pub struct Hold {
    pub next: usize,
    pub count: usize,
    pub edge: usize,
    pub end: usize,
    pub due: usize,
}

// Nothing is held.
pub(crate) fn no_hold() -> Hold
    ensures { result ≡ no_hold }
{
    nothing_held(0, 0)
}

// Nothing is held of the pointers up to `end`, from `at` on.
fn nothing_held(at: usize, end: usize) -> Hold
    ensures { result ≡ nothing_held at end }
{
    Hold {
        next: 0,
        count: 0,
        edge: at,
        end,
        due: at,
    }
}

// A pointer as one number: its target, and then the three bytes of its kind.
fn key(target: usize, kind: usize) -> usize
    requires { (target < 4294967296) × (kind < 16777216) }
    ensures { result ≡ key_of target kind }
{
    target * ANY + kind
}

// The pointer record at q.
fn entry_at(s: &[u8], q: usize) -> usize
    requires { q + 27 ≤ length s.now }
    ensures { EntryIs s.now q result }
{
    key(word(s, q + 23), triple(s, q + 20))
}

// One more of the held, at place n, unless it is `named`; more than there is room for where it does not fit.
fn put(held: &mut [usize], n: usize, entry: usize, named: usize) -> usize
    requires { n ≤ length held.old }
    ensures { PutIs held.old held.new n entry named result }
{
    if entry == named {
        return n;
    }
    if n == held.len() {
        return n + 1;
    }
    held[n] = entry;
    n + 1
}

// The pointers up to `end` whose targets are from lo up to hi, from the cursor on, without those that are `named`; more than there is room
// for where they do not all fit.
fn gather(
    s: &[u8],
    held: &mut [usize],
    from: usize,
    end: usize,
    lo: usize,
    hi: usize,
    named: usize,
) -> usize
    requires { Scan s.now end lo hi any from }
    ensures { GatheredIs s.now held.new (length held.old) end lo hi named result }
{
    let mut n: usize = 0;
    let mut q = from;
    while q < end {
        match look_at(s, q, lo, hi, ANY, false) {
            Look::Pass => {
                q += word(s, q + 4);
            }
            Look::Miss => {
                q += 27;
            }
            Look::Stop => {
                return held.len() + 1;
            }
            Look::Found => {
                n = put(held, n, entry_at(s, q), named);
                if held.len() < n {
                    return n;
                }
                q += 27;
            }
        }
    }
    n
}

// The first `count` of the held in ascending order: each of them is there still.
fn put_in_order(held: &mut [usize], count: usize)
    requires { count ≤ length held.old }
    ensures kept { IsPermutation (take count held.old) (take count held.new) }
    ensures sorted { IsNonDecreasing (take count held.new) }
    ensures rest { drop count held.new ≡ drop count held.old }
{
    held[..count].sort_unstable();
}

// The buffer anew, before the record at `at`: in order, the pointers whose targets are from there on, as far as there is room for them.
// Those that name the record, as many as they may be, need no place.
fn refill(
    s: &[u8],
    held: &mut [usize],
    from: usize,
    end: usize,
    at: usize,
    named: usize,
    d: usize,
) -> Hold
    requires { Scan s.now end at d any from × (at < d) × (d ≤ 2147483647) }
    ensures { ReadyIs s.now held.new (length held.old) end at named result }
{
    let edge = edge_of(s, from, end, at + 1, d, held.len());
    let count = gather(s, held, from, end, at, edge, named);
    if held.len() < count {
        return nothing_held(at, end);
    }
    put_in_order(held, count);
    Hold {
        next: 0,
        count,
        edge,
        end,
        due: at,
    }
}

// The buffer reaches up to `to`, if it can, and has each pointer up to w.end in view, without those that are `named`. (Two calls, so that
// the compiler leaves what fills the buffer out of the walk's loop.)
fn ready(
    s: &[u8],
    held: &mut [usize],
    hold: Hold,
    w: Pointers,
    at: usize,
    to: usize,
    named: usize,
    d: usize,
) -> Hold
    requires { Kept s.now at w × HoldIs s.now at held.old hold × (d ≡ declared s.now) × (at < d) × (d ≤ 2147483647) }
    ensures { ReadyIs s.now held.new (length held.old) w.end at named result }
{
    if hold.end != w.end {
        return refill(s, held, w.from, w.end, at, named, d);
    }
    if hold.edge < to {
        return refill(s, held, w.from, w.end, at, named, d);
    }
    hold
}

// The first of the held, from `next` up to `count`, that is another than `named`.
fn skip(held: &[usize], next: usize, count: usize, named: usize) -> usize
    requires { (next ≤ count) × (count ≤ length held.now) }
    ensures { SkippedIs held.now next count named result }
{
    for j in next..count {
        if held[j] != named {
            return j;
        }
    }
    count
}

// The target of the next of the held, or the edge.
fn due_of(held: &[usize], next: usize, count: usize, edge: usize) -> usize
    requires { count ≤ length held.now }
    ensures { (result ≤ edge) × (next < count → result * any ≤ slice_index held.now next) }
{
    if count <= next {
        return edge;
    }
    edge.min(held[next] / ANY)
}

// Where the targets are in no order and a pointer may point at the record at `at`: those of the held that name it go, and the target of
// the next is due. Where a pointer is due before the record's end, or they cannot be held, the turn looks through all of them.
pub(crate) fn ease(
    s: &[u8],
    held: &mut [usize],
    hold: Hold,
    w: Pointers,
    at: usize,
    d: usize,
) -> Hold
    requires { Kept s.now at w × HoldIs s.now at held.old hold × (d ≡ declared s.now) × (at < d) × (d ≤ 2147483647) }
    ensures { EasedIs s.now (length held.old) w.end at held.new result }
{
    let mut same = hold;
    same.due = w.due;
    if w.rising {
        return same;
    }
    if s.len() < at + 20 {
        return same;
    }
    let to = at + word(s, at + 4);
    if to <= w.due {
        return same;
    }
    if to <= at {
        return same;
    }
    let named = key(at, triple(s, at));
    let mut v = ready(s, held, hold, w, at, to, named, d);
    let next = skip(held, v.next, v.count, named);
    v.due = due_of(held, next, v.count, v.edge);
    v.next = next;
    v
}
