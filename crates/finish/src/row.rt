// A record's row: start, size, class, group, subclass, version, and the ordinal among the rows of its class, group and subclass, each
// three of which have a counter of their own.
ghost use Rattle.std.specs.Prelude.{◌≡◌, true, ◌≤◌, length};
ghost use Rattle.record.specs.Header.{is_group};
ghost use Rattle.judge.specs.Table.{size_at};
ghost use Rattle.finish.specs.Rows.{row};
ghost use Rattle.finish.specs.Slots.{column_of, SlotIs};
ghost use Rattle.finish.specs.Ahead.{Record};
ghost use Rattle.finish.specs.Fill.{PutRow, PutsRow};

// The column of a group. A processor picks one of two values without a guess, so that no header is waited for.
fn column(group: u8) -> usize
    ensures { result ≡ column_of group }
{
    if group == 99 { 14 } else { group as usize }
}

// The slot of a class, a group and a subclass among the counters.
fn slot(class: u8, group: u8, subclass: u8) -> usize
    requires { (1 ≤ class) × (class ≤ 8) × (is_group group ≡ true) }
    ensures { SlotIs class group subclass result }
{
    ((class as usize - 1) * 16 + column(group)) * 256 + subclass as usize
}

// The row of the record at `at`.
fn row_at(s: &[u8], at: usize, size: usize, ordinal: u32) -> [u32; 7]
    requires { Record s.now at × (length s.now ≤ 2147483647) × (size ≡ size_at s.now at) }
    ensures { result ≡ row s.now at ordinal }
{
    [
        at as u32,
        size as u32,
        s[at] as u32,
        s[at + 1] as u32,
        s[at + 2] as u32,
        s[at + 3] as u32,
        ordinal,
    ]
}

// The row of the record at `at`, of that size, goes into place k, and is counted.
pub(crate) fn put_row(
    s: &[u8],
    rows: &mut [[u32; 7]],
    counts: &mut [u32],
    k: usize,
    at: usize,
    size: usize,
)
    requires { PutRow s.now rows.old counts.old k at size }
    ensures { PutsRow s.now rows.old counts.old k at rows.new counts.new }
{
    let j = slot(s[at], s[at + 1], s[at + 2]);
    let ordinal = counts[j];
    counts[j] = ordinal + 1;
    rows[k] = row_at(s, at, size, ordinal);
}
