// What a record's header shows by itself: the faults 7 to 11, and 6 where too few bytes are left after it.
ghost use Rattle.std.specs.Prelude.{◌≡◌, ◌+◌, ◌<◌, ◌≤◌, true, ◌&&◌, length, nat_lt};
ghost use Rattle.meter.specs.Integer.{be_at};
ghost use Rattle.record.specs.Header.{is_class};
ghost use Rattle.record.specs.Follow.{may_follow, Ruled};
ghost use Rattle.judge.specs.Step.{Ranked, Ranking, RankIs, Rankable, SizedIs, SixIn};

// The number in the 2 bytes from `at` on.
pub(crate) fn pair(s: &[u8], at: usize) -> usize
    requires { at + 2 ≤ length s.now }
    ensures { (result ≡ be_at s.now at 2) × (result < 65536) }
{
    s[at] as usize * 256 + s[at + 1] as usize
}

// The number in the 3 bytes from `at` on.
pub(crate) fn triple(s: &[u8], at: usize) -> usize
    requires { at + 3 ≤ length s.now }
    ensures { (result ≡ be_at s.now at 3) × (result < 16777216) }
{
    pair(s, at) * 256 + s[at + 2] as usize
}

// The number in the 4 bytes from `at` on.
pub(crate) fn word(s: &[u8], at: usize) -> usize
    requires { at + 4 ≤ length s.now }
    ensures { (result ≡ be_at s.now at 4) × (result < 4294967296) }
{
    triple(s, at) * 256 + s[at + 3] as usize
}

// 1 to 19 bytes of d are left from `at` on.
pub fn is_part(at: usize, d: usize) -> bool
    ensures { result ≡ (nat_lt at d && nat_lt d (at + 20)) }
{
    if d <= at {
        return false;
    }
    d - at < 20
}

// A size of 20 or more, not past d, and 27 for a pointer record.
fn is_sized(class: u8, size: usize, left: usize) -> bool
    ensures { SizedIs class size left result }
{
    if size < 20 {
        return false;
    }
    if left < size {
        return false;
    }
    if class != 3 {
        return true;
    }
    size == 27
}

// The record is of 20 bytes, and 1 to 19 bytes are left after it.
fn is_six(class: u8, size: usize, left: usize) -> bool
    ensures { SixIn class size left result }
{
    if size != 20 {
        return false;
    }
    if class == 3 {
        return false;
    }
    if left <= 20 {
        return false;
    }
    left < 40
}

// Whether a record of the class may follow one of the class `last`, by the table that is at hand.
pub(crate) fn may_follow(follow: &[[bool; 8]; 8], last: u8, class: u8) -> bool
    requires { (is_class last ≡ true) × (is_class class ≡ true) }
    ensures { Ruled follow.now → result ≡ may_follow last class }
{
    follow[(last - 1) as usize][(class - 1) as usize]
}

// The lowest number of the faults that the header at byte `at` of s shows by itself, of whose product `left` bytes are left from its
// start on; 6 where 1 to 19 bytes are left after its 20, or 12 for none. The bytes may be a whole arrival's, or the header's alone.
pub(crate) fn rank_in(
    s: &[u8],
    follow: &[[bool; 8]; 8],
    totals: &[usize],
    tally: &[usize],
    left: usize,
    at: usize,
    prev: u8,
) -> u8
    requires { Rankable s.now totals.now tally.now at prev }
    ensures { Ruled follow.now → RankIs s.now at left prev totals.now tally.now result }
{
    let class = s[at];
    let size = word(s, at + 4);
    if is_six(class, size, left) {
        return 6;
    }
    // Both at once: which of the groups it is cannot be guessed.
    let known = record::header::is_class(class) & record::header::is_group(s[at + 1]);
    if !known {
        return 7;
    }
    if !may_follow(follow, prev, class) {
        return 8;
    }
    if !is_sized(class, size, left) {
        return 9;
    }
    if !crate::times::stand(s, at) {
        return 10;
    }
    if totals[class as usize] <= tally[class as usize] {
        return 11;
    }
    12
}

// The rank of the header at `at` of an arrival.
pub(crate) fn rank(
    s: &[u8],
    follow: &[[bool; 8]; 8],
    totals: &[usize],
    tally: &[usize],
    d: usize,
    at: usize,
    prev: u8,
) -> u8
    requires { Ranking s.now totals.now tally.now d at prev × Ruled follow.now }
    ensures { Ranked s.now prev at tally.now result }
{
    rank_in(s, follow, totals, tally, d - at, at, prev)
}
