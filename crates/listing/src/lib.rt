// The listing of a product's records as text, and the line of a refusal.
#![tactic(auto)]

ghost use Rattle.std.specs.Prelude.{◌≡◌, true, ◌++◌, ◌+◌, ◌≤◌, ◌<◌, length};
ghost use Rattle.text.specs.Writing.{fits_text};
ghost use Rattle.listing.specs.Decimal.{decimal, column, Puts};
ghost use Rattle.listing.specs.Listing.{line, Listable, Needs, Roomy, Full, ListedIs, LineIs};

use calendar::{Refusal, fault};
use judge::arrival::judge_extent;
use record::header::size_at;

const MOST: usize = 65_536;

// How many digits v has.
fn places(v: usize) -> usize
    ensures { (result ≡ length (decimal v)) × (result ≤ 20) }
{
    let mut n: usize = 1;
    let mut rest = v;
    // By tens: how many turns there are is what is asked.
    while 9 < rest {
        rest = rest / 10;
        n += 1;
    }
    n
}

// The digits of v from `at` on, and then `end`; the byte after it comes back.
fn put_column(room: &mut [u8], at: usize, v: usize, end: u8) -> usize
    requires { at + length (column v end) ≤ length room.old }
    ensures { Puts room.old at (column v end) result room.new }
{
    let to = at + places(v);
    room[to] = end;
    let mut rest = v;
    for i in (at + 1..to).rev() {
        room[i] = 48 + (rest % 10) as u8;
        rest = rest / 10;
    }
    room[at] = 48 + rest as u8;
    to + 1
}

// How many bytes the line of the record at `at` has.
fn line_width(s: &[u8], at: usize) -> usize
    requires { at + 8 ≤ length s.now }
    ensures { (result ≡ length (line s.now at)) × (result ≤ 126) }
{
    let kind = places(usize::from(s[at]))
        + places(usize::from(s[at + 1]))
        + places(usize::from(s[at + 2]));
    places(at) + kind + places(usize::from(s[at + 3])) + places(size_at(s, at)) + 6
}

// The line of the record at `at`, from p on.
fn put_line(s: &[u8], at: usize, room: &mut [u8], p: usize) -> usize
    requires { (at + 8 ≤ length s.now) × (p + length (line s.now at) ≤ length room.old) }
    ensures { Puts room.old p (line s.now at) result room.new }
{
    let class = put_column(room, p, at, b' ');
    let group = put_column(room, class, usize::from(s[at]), b' ');
    let subclass = put_column(room, group, usize::from(s[at + 1]), b' ');
    let version = put_column(room, subclass, usize::from(s[at + 2]), b' ');
    let size = put_column(room, version, usize::from(s[at + 3]), b' ');
    put_column(room, size, size_at(s, at), b'\n')
}

// A word of 8 bytes and a number, at the start of the room.
fn put_head(room: &mut [u8], word: &[u8], v: usize, end: u8) -> usize
    requires { (fits_text 8 word.now ≡ true) × (8 + length (column v end) ≤ length room.old) }
    ensures { Puts room.old 0 (word.now ++ column v end) result room.new }
{
    let _ = text::write_text(room, 8, word);
    put_column(room, 8, v, end)
}

// How many bytes the listing has.
fn needed(s: &[u8], count: usize) -> usize
    requires { Listable s.now count }
    ensures { Needs s.now count result }
{
    let mut n = 9 + places(count) + line_width(s, 0);
    let mut at: usize = 3307;
    while at < s.len() {
        n += line_width(s, at);
        at += size_at(s, at);
    }
    n
}

fn put_list(s: &[u8], count: usize, room: &mut [u8])
    requires { Roomy s.now count room.old }
    ensures { Full s.now count room.old room.new }
{
    let head = put_head(room, b"records ", count, b'\n');
    let mut p = put_line(s, 0, room, head);
    let mut at: usize = 3307;
    while at < s.len() {
        p = put_line(s, at, room, p);
        at += size_at(s, at);
    }
}

// The listing of a product that is complete.
fn list_complete(s: &[u8], count: usize, room: &mut [u8]) -> Result<usize, Refusal>
    requires { Listable s.now count }
    ensures { ListedIs s.now room.old result room.new }
{
    let n = needed(s, count);
    if room.len() < n {
        return Err(Refusal {
            number: fault::ROOM,
            place: n,
        });
    }
    put_list(s, count, room);
    Ok(n)
}

// The listing of a product at the start of the room.
pub fn list_product(bytes: &[u8], room: &mut [u8]) -> Result<usize, Refusal>
    ensures { ListedIs bytes.now room.old result room.new }
{
    if MOST < bytes.len() {
        return Err(Refusal {
            number: fault::LISTING_LIMIT,
            place: MOST,
        });
    }
    let Some(count) = judge_extent(bytes)? else {
        return Err(Refusal {
            number: fault::UNFINISHED,
            place: bytes.len(),
        });
    };
    list_complete(bytes, count, room)
}

// The line of a refusal at the start of the room.
pub fn refusal_line(refusal: Refusal, room: &mut [u8]) -> Result<usize, Refusal>
    ensures { LineIs refusal room.old result room.new }
{
    let number = usize::from(refusal.number);
    let n = 10 + places(number) + places(refusal.place);
    if room.len() < n {
        return Err(Refusal {
            number: fault::ROOM,
            place: n,
        });
    }
    let p = put_head(room, b"refused ", number, b' ');
    put_column(room, p, refusal.place, b'\n');
    Ok(n)
}
