// The field that has a name, and the name of a field.
ghost use Rattle.std.specs.Prelude.{◌≡◌, ◌<◌, length};
ghost use Rattle.calendar.specs.Said.{said};
ghost use Rattle.mphr.specs.Layout.{name_of};
ghost use Rattle.mphr.specs.Lookup.{same, field_named};
ghost use Rattle.mphr.specs.Lines.{WritesName};
ghost use Rattle.mphr.specs.Quick.{agrees, likely_of};

use crate::faults::{eight, wide};
use crate::layout::{byte_of, size_of, words};
use crate::lines::put_name;
use crate::rows::{BY_FIRST, BY_LAST, BY_MIDDLE, fields_at, letters_of};
use calendar::{Refusal, fault};

// w is the number of the eight bytes from `at` on, where there are so many.
fn agrees(name: &[u8], at: usize, w: u64) -> bool
    requires { at < 32 }
    ensures { result ≡ agrees name.now at w }
{
    if name.len() < at + 8 {
        return true;
    }
    eight(name, at) == w
}

// The length, the eights from the start on and the last eight, which overlap with them.
fn matches(name: &[u8], k: usize) -> bool
    requires { k < 72 }
    ensures { result ≡ same name.now (name_of k) }
{
    let row = words(k);
    let n = name.len();
    if (row[3] % 256) as usize != n {
        return false;
    }
    if !agrees(name, 0, row[0]) {
        return false;
    }
    if !agrees(name, 8, row[1]) {
        return false;
    }
    if !agrees(name, 16, row[2]) {
        return false;
    }
    eight(name, n - 8) == row[4]
}

// The only field that can have the name; 72 or more for none. Its length and first letter are looked at before its place is computed:
// most unknown names go by them.
fn likely(name: &[u8]) -> usize
    ensures { result ≡ likely_of name.now }
{
    let n = name.len();
    if n < 9 {
        return 255;
    }
    if 30 < n {
        return 255;
    }
    let letters = letters_of(n);
    if (letters >> (wide(name[0]) % 32)) % 2 != 1 {
        return 255;
    }
    let last = eight(name, n - 8) % BY_LAST;
    let middle = eight(name, n / 2 - 4) % BY_MIDDLE;
    let place = (last + middle + BY_FIRST * wide(name[0])) % 256;
    size_of(byte_of(fields_at(place / 8), (place % 8) as usize))
}

// The number of the field whose unpadded name the lent bytes are; 22 where there is none.
pub fn field_named(name: &[u8]) -> Result<usize, Refusal>
    ensures { said result ≡ field_named name.now }
{
    let k = likely(name);
    if k < 72 {
        if matches(name, k) {
            return Ok(k);
        }
    }
    Err(Refusal {
        number: fault::NO_FIELD,
        place: 0,
    })
}

// How many bytes the name of field k has.
fn name_width(k: usize) -> usize
    requires { k < 72 }
    ensures { result ≡ length (name_of k) }
{
    let row = words(k);
    (row[3] % 256) as usize
}

// The unpadded name of field k at the start of the room; 22 where the number is not 0 to 71, then 18 with the bytes of the name.
pub fn write_name(room: &mut [u8], k: usize) -> Result<usize, Refusal>
    ensures { WritesName room.old k result room.new }
{
    if k > 71 {
        return Err(Refusal {
            number: fault::NO_FIELD,
            place: 0,
        });
    }
    let n = name_width(k);
    if room.len() < n {
        return Err(Refusal {
            number: fault::ROOM,
            place: n,
        });
    }
    put_name(room, k, n);
    Ok(n)
}
