// What a profile lets through, asked of records while their headers are at hand. A line of a profile has a class, a group, the least and
// the greatest subclass, the least and the greatest version.
ghost use Rattle.std.specs.Prelude.{◌≡◌, ◌+◌, ◌<◌, ◌≤◌, length};
ghost use Rattle.judge.specs.Profile as P;
ghost use Rattle.judge.specs.Profile.{is_let, speaks, LineIs, OneSize, Passed, Meeting};

// A profile is lent where one is asked for; of this one no line is.
pub const NO_PROFILE: [[u8; 6]; 1] = [[0; 6]];

fn is_let(line: [u8; 6], class: u8, group: u8, subclass: u8, version: u8) -> bool
    ensures { result ≡ is_let line class group subclass version }
{
    if line[0] != class {
        return false;
    }
    if line[1] != group {
        return false;
    }
    if subclass < line[2] {
        return false;
    }
    if line[3] < subclass {
        return false;
    }
    if version < line[4] {
        return false;
    }
    version <= line[5]
}

// The first line that lets such a record through, or how many lines there are.
fn line_for(profile: &[[u8; 6]], class: u8, group: u8, subclass: u8, version: u8) -> usize
    ensures { LineIs profile.now class group subclass version result }
{
    for (i, line) in profile.iter().enumerate() {
        if is_let(*line, class, group, subclass, version) {
            return i;
        }
    }
    profile.len()
}

fn is_spoken(profile: &[[u8; 6]], class: u8) -> bool
    ensures { result ≡ speaks profile.now class }
{
    for line in profile {
        if line[0] == class {
            return true;
        }
    }
    false
}

// A line lets such a record through, or its class is not spoken of.
pub fn allows(profile: &[[u8; 6]], class: u8, group: u8, subclass: u8, version: u8) -> bool
    ensures { result ≡ P.allows profile.now class group subclass version }
{
    if line_for(profile, class, group, subclass, version) < profile.len() {
        return true;
    }
    !is_spoken(profile, class)
}

// The records of one size from `from` up to `end`, as far as line i lets them through; the byte after them comes back.
fn pass_let(s: &[u8], profile: &[[u8; 6]], i: usize, from: usize, size: usize, end: usize) -> usize
    requires { OneSize s.now size from end × (i < length profile.now) }
    ensures { Passed profile.now s.now size from result end }
{
    let line = profile[i];
    let mut at = from;
    while at < end {
        if !is_let(line, s[at], s[at + 1], s[at + 2], s[at + 3]) {
            return at;
        }
        at += size;
    }
    at
}

// Those from `at` on as far as one line lets them through, or the one there where its class is not spoken of; where it is against the
// profile, none.
fn pass_some(s: &[u8], profile: &[[u8; 6]], at: usize, size: usize, end: usize) -> usize
    requires { OneSize s.now size at end × (at < end) }
    ensures { Passed profile.now s.now size at result end }
{
    let i = line_for(profile, s[at], s[at + 1], s[at + 2], s[at + 3]);
    if i < profile.len() {
        return pass_let(s, profile, i, at + size, size, end);
    }
    if is_spoken(profile, s[at]) {
        return at;
    }
    at + size
}

// Those from `from` on that meet the profile, up to `end` or to the first that does not.
fn pass_met(s: &[u8], profile: &[[u8; 6]], from: usize, size: usize, end: usize) -> usize
    requires { OneSize s.now size from end }
    ensures { Passed profile.now s.now size from result end }
{
    let mut at = from;
    while at < end {
        let next = pass_some(s, profile, at, size, end);
        if next <= at {
            return at;
        }
        at = next;
    }
    at
}

// The records after the main header meet the profile up to `met`: where that is `at`, those of one size from there up to `end` are asked.
pub(crate) fn met_on(
    s: &[u8],
    profile: &[[u8; 6]],
    met: usize,
    at: usize,
    size: usize,
    end: usize,
) -> usize
    requires { Meeting profile.now s.now 3307 met × OneSize s.now size at end }
    ensures { Meeting profile.now s.now 3307 result }
{
    if met != at {
        return met;
    }
    if profile.len() == 0 {
        return met;
    }
    pass_met(s, profile, at, size, end)
}

// How many records at most are passed before the profile is asked of them: so few that their headers have not left the nearest memory. No
// profile asks nothing, and more than any product has are passed at once.
pub(crate) fn stride(profile: &[[u8; 6]]) -> usize {
    if profile.len() == 0 {
        return 1_000_000;
    }
    128
}
