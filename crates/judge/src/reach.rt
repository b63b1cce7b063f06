// How far a room reaches that is to hold the pointers with the nearest targets: they are counted by their targets, first in wide parts and
// then in narrower ones. Nothing rests on what is found but the time: what is held is tested where it is gathered.
ghost use Rattle.std.specs.Prelude.{◌≡◌, ◌+◌, ◌<◌, ◌≤◌, length};
ghost use Rattle.judge.specs.Step.{any, Scan};

use crate::header::word;
use crate::pointers::{ANY, Look, look_at};

// How many parts the room has places for, and how many places are left.
#[derive(Clone, Copy)]
pub struct Fit {
    pub parts: usize,
    pub left: usize,
}

// One more in a part, if there is such a part.
fn note(parts: &mut [usize], j: usize)
    ensures { length parts.new ≡ length parts.old }
{
    if j < parts.len() {
        let n = parts[j];
        if n < 4_294_967_296 {
            parts[j] = n + 1;
        }
    }
}

// The pointers up to `end` whose targets are from lo up to d, counted by their targets: one count to 2^k bytes.
fn tally(s: &[u8], parts: &mut [usize], from: usize, end: usize, lo: usize, d: usize, k: usize)
    requires { Scan s.now end lo d any from × (k ≤ 20) }
{
    let mut q = from;
    while q < end {
        match look_at(s, q, lo, d, ANY, false) {
            Look::Pass => {
                q += word(s, q + 4);
            }
            Look::Miss => {
                q += 27;
            }
            Look::Stop => {
                return;
            }
            Look::Found => {
                note(parts, (word(s, q + 23) - lo) >> k);
                q += 27;
            }
        }
    }
}

// How many of the parts, from the first on, there is room for.
fn fit_in(parts: &[usize], room: usize) -> Fit {
    let mut left = room;
    for (j, n) in parts.iter().enumerate() {
        if left < *n {
            return Fit { parts: j, left };
        }
        left -= *n;
    }
    Fit {
        parts: parts.len(),
        left,
    }
}

fn fit_of(s: &[u8], from: usize, end: usize, lo: usize, d: usize, k: usize, room: usize) -> Fit
    requires { Scan s.now end lo d any from × (k ≤ 20) }
{
    let mut parts = [0usize; 2048];
    tally(s, &mut parts, from, end, lo, d, k);
    fit_in(&parts, room)
}

// The least k, up to 20, for which 2,048 parts of 2^k bytes are as wide.
fn coarse(width: usize) -> usize
    ensures { result ≤ 20 }
{
    for k in 0..20 {
        if width >> k < 2048 {
            return k;
        }
    }
    20
}

// A byte up to which the targets from lo on have places in the room: d where all have; else with three quarters of the room taken, or up
// to the very byte whose pointers do not fit.
pub(crate) fn edge_of(s: &[u8], from: usize, end: usize, lo: usize, d: usize, room: usize) -> usize
    requires { Scan s.now end lo d any from × (lo ≤ d) }
    ensures { result ≤ d }
{
    if (end - from) / 27 <= room {
        return d;
    }
    let mut edge = lo;
    let mut left = room;
    let mut k = coarse(d - lo) + 10;
    while 0 < k {
        k = k.saturating_sub(10);
        let fit = fit_of(s, from, end, edge, d, k, left);
        edge += (d - edge).min(fit.parts << k);
        left = fit.left;
        if left <= room / 4 {
            return edge;
        }
    }
    edge
}
