// Bytes into a room, and bytes and records compared.
ghost use Rattle.std.specs.Prelude.{◌≡◌, ◌+◌, ◌≤◌, length, take, drop};
ghost use Rattle.std.proofs.lemmas.List.Edits.{sets};
ghost use Rattle.bytewise.specs.Comparing.{Decides};
ghost use Rattle.rewrite.specs.Comparing.{untimed_at, Untimable, Texts, SeenIs, Seeable};
ghost use Rattle.parts.specs.Join.{granules};

use bytewise::is_same;
use record::header::size_at;

// The n bytes of s from `from` on, into the room from `at` on.
pub(crate) fn copy(s: &[u8], from: usize, n: usize, room: &mut [u8], at: usize)
    requires { (from + n ≤ length s.now) × (at + n ≤ length room.old) }
    ensures { room.new ≡ sets room.old at (take n (drop from s.now)) }
{
    // No `copy_from_slice`: it makes the archive ask for memmove, where this asks for memcpy.
    for i in 0..n {
        room[at + i] = s[from + i];
    }
}

// The record of `size` bytes of s at `at` is that of t but for the two times of its header.
fn is_one_untimed(s: &[u8], t: &[u8], at: usize, size: usize) -> bool
    requires { Untimable s.now t.now at size }
    ensures { Decides (untimed_at s.now at size ≡ untimed_at t.now at size) result }
{
    is_same(s, at, t, at, 8) && is_same(s, at + 20, t, at + 20, size - 20)
}

// The records of s are those of t but for the two times of their headers.
fn is_same_untimed(s: &[u8], t: &[u8]) -> bool
    requires { Texts s.now t.now }
    ensures { SeenIs granules s.now t.now result }
{
    let mut at: usize = 0;
    while at < s.len() {
        let size = size_at(s, at);
        if !is_one_untimed(s, t, at, size) {
            return false;
        }
        at += size;
    }
    true
}

// The records of the n bytes of s from `from` on are those of t from `at` on but for the two times of their headers.
pub(crate) fn is_untimed(s: &[u8], from: usize, t: &[u8], at: usize, n: usize) -> bool
    requires { Seeable s.now t.now from at n }
    ensures { SeenIs granules (take n (drop from s.now)) (take n (drop at t.now)) result }
{
    is_same_untimed(&s[from..from + n], &t[at..at + n])
}
