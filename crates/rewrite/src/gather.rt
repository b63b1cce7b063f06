// Sections that go into a new product one after the other: the place of the first of each kind, and how many records
// of each class there are.
ghost use Rattle.std.specs.Prelude.{◌≡◌, ◌+◌};
ghost use Rattle.rewrite.specs.Gathering.{GatherOne, GathersOne, GatherSome, GathersSome, Gatherable, Gathers};

use crate::kinds::{note, slot, wide};
use record::header::size_at;

// The record at `at`, before which n bytes go into the new product.
fn gather_one(s: &[u8], at: usize, n: usize, table: &mut [u32], tally: &mut [usize])
    requires { GatherOne s.now at n table.old tally.old }
    ensures { GathersOne s.now at n table.old tally.old table.new tally.new }
{
    let class = s[at];
    note(table, slot(class, s[at + 1], s[at + 2]), n);
    tally[wide(class)] += 1;
}

// How many records were gathered, and where the next one starts.
#[derive(Clone, Copy)]
pub struct Reached {
    pub records: usize,
    pub at: usize,
}

// The records from `from` on that are of one size, as far as they are before `to`. The next place is known before the size that stands
// there has come from memory, so the headers are read side by side.
fn gather_alike(
    s: &[u8],
    from: usize,
    to: usize,
    n: usize,
    table: &mut [u32],
    tally: &mut [usize],
) -> Reached
    requires { GatherSome s.now from to n table.old tally.old }
    ensures { GathersSome s.now from to n table.old tally.old result table.new tally.new }
{
    let size = size_at(s, from);
    let mut records: usize = 0;
    let mut at = from;
    while at < to {
        if size_at(s, at) != size {
            return Reached { records, at };
        }
        gather_one(s, at, n + (at - from), table, tally);
        records += 1;
        at += size;
    }
    Reached { records, at }
}

// The records from `from` to `to`, before which n bytes go into the new product; how many they are comes back.
pub(crate) fn gather(
    s: &[u8],
    from: usize,
    to: usize,
    n: usize,
    table: &mut [u32],
    tally: &mut [usize],
) -> usize
    requires { Gatherable s.now from to n table.old tally.old }
    ensures { Gathers s.now from to n table.old tally.old result table.new tally.new }
{
    let mut records: usize = 0;
    let mut at = from;
    while at < to {
        let reached = gather_alike(s, at, to, n + (at - from), table, tally);
        records += reached.records;
        at = reached.at;
    }
    records
}
