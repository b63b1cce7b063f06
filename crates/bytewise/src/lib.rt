// Bytes compared: two parts of as many bytes are the same.
#![tactic(auto)]

ghost use Rattle.std.specs.Prelude.{◌+◌, ◌≤◌, length, take, drop};
ghost use Rattle.bytewise.specs.Comparing.{Decides, SameIs, SameParts};

// The n bytes of s from `from` on are those of t from `at` on, all of them there.
fn is_within(s: &[u8], from: usize, t: &[u8], at: usize, n: usize) -> bool
    requires { (from + n ≤ length s.now) × (at + n ≤ length t.now) }
    ensures { SameIs (take n (drop from s.now)) (take n (drop at t.now)) result }
{
    &s[from..from + n] == &t[at..at + n]
}

// The n bytes of s from `from` on are there, and so are those of t from `at` on, and they are the same.
pub fn is_same(s: &[u8], from: usize, t: &[u8], at: usize, n: usize) -> bool
    ensures { Decides (SameParts s.now from t.now at n) result }
{
    if s.len() < from {
        return false;
    }
    if s.len() - from < n {
        return false;
    }
    if t.len() < at {
        return false;
    }
    if t.len() - at < n {
        return false;
    }
    is_within(s, from, t, at, n)
}
