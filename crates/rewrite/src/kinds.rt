// The table of kinds: for each class 4 to 8, group and subclass where the first of its records will stand; and the pointers that it gives.
ghost use Rattle.std.specs.Prelude.{◌≡◌, true, ◌+◌, ◌%◌, ◌≤◌, ◌<◌, length};
ghost use Rattle.record.specs.Header.{is_group};
ghost use Rattle.parts.specs.Kinds.{group_at, kind_at, ipr_to};
ghost use Rattle.rewrite.specs.Table.{noted, SlotOf, filled_to};
ghost use Rattle.rewrite.specs.Emitting.{place_text, pointers_from, Place, PutsText, Table};

use crate::copy::copy;

pub(crate) fn wide(x: u8) -> usize
    ensures { result ≡ x }
{
    x as usize
}

// The column of a group. A processor picks one of two values without a guess, so that no header is waited for.
fn column(group: u8) -> usize
    requires { is_group group ≡ true }
    ensures { (result < 16) × (group_at result ≡ group) }
{
    if group <= 13 {
        wide(group)
    } else if group == 15 {
        14
    } else {
        15
    }
}

// The place of a class, a group and a subclass in the table of kinds.
pub(crate) fn slot(class: u8, group: u8, subclass: u8) -> usize
    requires { (4 ≤ class) × (class ≤ 8) × (is_group group ≡ true) }
    ensures { SlotOf class group subclass result }
{
    ((wide(class) - 4) * 16 + column(group)) * 256 + wide(subclass)
}

// Place j, if it is empty, gets n + 1.
pub(crate) fn note(table: &mut [u32], j: usize, n: usize)
    requires { (j < length table.old) × (n ≤ 2147483647) }
    ensures { table.new ≡ noted table.old j n }
{
    if table[j] == 0 {
        table[j] = (n + 1) as u32;
    }
}

// How many places are not empty.
pub(crate) fn kinds_in(table: &[u32]) -> usize
    requires { length table.now ≡ 20480 }
    ensures { result ≡ filled_to table.now 20480 }
{
    // No `filter` and `count`: they take twice the time, in each cut and join.
    let mut n: usize = 0;
    for place in table {
        if *place != 0 {
            n += 1;
        }
    }
    n
}

fn wide_word(x: u32) -> usize
    ensures { (result ≡ x) × (result < 4294967296) }
{
    x as usize
}

fn byte(v: usize) -> u8
    ensures { result ≡ v % 256 }
{
    (v % 256) as u8
}

// The group of a column of the table of kinds.
fn group_at(x: usize) -> u8
    requires { x < 16 }
    ensures { result ≡ group_at x }
{
    match x {
        0..=13 => byte(x),
        14 => 15,
        _ => 99,
    }
}

// The pointer record at a record of the kind of place j.
fn pointer_to(s: &[u8], j: usize, offset: usize) -> [u8; 27]
    requires { (20 ≤ length s.now) × (j < 20480) }
    ensures { result ≡ ipr_to s.now (kind_at j) offset }
{
    let class = byte(4 + j / 4096);
    let group = group_at(j / 256 % 16);
    let subclass = byte(j);
    let first = byte(offset / 256 / 256 / 256);
    let second = byte(offset / 256 / 256);
    let third = byte(offset / 256);
    let fourth = byte(offset);
    [
        3, 0, 0, 1, 0, 0, 0, 27, s[8], s[9], s[10], s[11], s[12], s[13], s[14], s[15], s[16],
        s[17], s[18], s[19], class, group, subclass, first, second, third, fourth,
    ]
}

// The pointer of place j, if there is one, goes into the room from p on; the byte after it comes back.
fn put_place(s: &[u8], table: &[u32], j: usize, base: usize, room: &mut [u8], p: usize) -> usize
    requires { Place s.now base table.now j room.old p }
    ensures { PutsText (place_text s.now base table.now j) room.old p result room.new }
{
    let at = wide_word(table[j]);
    if at == 0 {
        return p;
    }
    let pointer = pointer_to(s, j, base + (at - 1));
    copy(&pointer, 0, 27, room, p);
    p + 27
}

// The pointers of all places, into the room from p on; the byte after them comes back.
pub(crate) fn put_pointers(s: &[u8], table: &[u32], base: usize, room: &mut [u8], p: usize) -> usize
    requires { Table s.now base table.now room.old p }
    ensures { PutsText (pointers_from s.now base table.now 0) room.old p result room.new }
{
    let mut to = p;
    for j in 0..20480 {
        to = put_place(s, table, j, base, room, to);
    }
    to
}
