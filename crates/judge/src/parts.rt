// What the walk over a whole arrival asks, for a walk that holds the main header, one record's header and numbers alone (request One's
// watch). Each takes any bytes and numbers and answers for them; only the rank asks that the follow table is the rule.
ghost use Rattle.std.specs.Prelude.{◌≡◌, ◌<◌, ◌≤◌, true, false};
ghost use Rattle.meter.specs.Integer.{be_at};
ghost use Rattle.record.specs.Header.{is_class};
ghost use Rattle.record.specs.Follow.{Ruled};
ghost use Rattle.text.specs.Field.{count_at};
ghost use Rattle.mphr.specs.Table.{declared};
ghost use Rattle.judge.specs.Step.{RankIs};
ghost use Rattle.judge.specs.Turning.{Begun, TotalsRead, Totals, FewerIs};

pub use crate::header::is_part;
use crate::header::{rank_in, triple, word};
pub use crate::run::{Run, lesser, run_of};

// The lowest number of the faults that a header shows by itself, as `rank_in` has it, where a record of the class `prev` is before it
// and the table is the rule; 12, the number of none of them, where `prev` is no class.
pub fn header_rank<'a>(
    under: &'a [u8; 27],
    follow: &'a [[bool; 8]; 8],
    totals: &'a [usize; 9],
    tally: &'a [usize; 9],
    left: usize,
    prev: u8,
) -> u8
    ensures { (is_class prev ≡ true → Ruled follow.now
        → RankIs under.now 0 left prev totals.now tally.now result)
        × (is_class prev ≡ false → result ≡ 12) }
{
    if !record::header::is_class(prev) {
        return 12;
    }
    rank_in(under, follow, totals, tally, left, 0, prev)
}

// The number of a field that has one, as each field of the size and the totals has in a fine main header; 0 of another.
fn count_at(main: &[u8], at: usize, width: usize) -> usize
    ensures { result ≡ count_at main.now at width }
{
    text::count_at(main, at, width) as usize
}

// What the field of the size counts, 0 where it is no number; of a fine main header that is D.
pub fn declared_size(main: &[u8]) -> usize
    ensures { (result ≡ count_at main.now 1485 11)
        × (Begun main.now → (result ≡ declared main.now) × (3307 ≤ result) × (result ≤ 2147483647)) }
{
    count_at(main, 1485, 11)
}

// What the fields of its totals count; of a fine main header those are the totals of the records and of each class.
pub fn totals_of(main: &[u8]) -> [usize; 9]
    ensures { TotalsRead main.now result × (Begun main.now → Totals main.now result) }
{
    let mut totals = [0usize; 9];
    for (j, total) in totals.iter_mut().enumerate() {
        *total = count_at(main, 2675 + 39 * j, 6);
    }
    totals
}

// A class has fewer records than its total.
pub fn is_fewer(totals: &[usize; 9], tally: &[usize; 9]) -> bool
    ensures { FewerIs totals.now tally.now result }
{
    for c in 1..9 {
        if tally[c] < totals[c] {
            return true;
        }
    }
    false
}

// The number in the 4 bytes of a header from `at` on; 0 where they are not all there.
pub fn word_in(under: &[u8; 27], at: usize) -> usize
    ensures { (at ≤ 23 → result ≡ be_at under.now at 4) × (result < 4294967296) × (23 < at → result ≡ 0) }
{
    if 23 < at {
        return 0;
    }
    word(under, at)
}

// The number in the 3 bytes from `at` on: class, group and subclass, of a record or of a target; 0 where they are not all there.
pub fn kind_in(under: &[u8; 27], at: usize) -> usize
    ensures { (at ≤ 24 → result ≡ be_at under.now at 3) × (result < 16777216) × (24 < at → result ≡ 0) }
{
    if 24 < at {
        return 0;
    }
    triple(under, at)
}
