// Internal pointer records (IPR), exactly 27 bytes: a header, and a target that is not judged here.
ghost use Rattle.std.specs.Prelude.{◌≡◌, true, ◌≤◌, length};
ghost use Rattle.calendar.specs.Said.{said};
ghost use Rattle.record.specs.Header.{is_header};
ghost use Rattle.record.specs.Pointer.{is_pointer, pointer_read_at, put_pointer, WritesPointer, PointerBack};

use crate::header::Header;
use calendar::{Refusal, fault};

// The header, then the target: its class, group and subclass, and its offset from the product's first byte.
#[derive(Clone, Copy)]
pub struct Pointer {
    pub header: Header,
    pub class: u8,
    pub group: u8,
    pub subclass: u8,
    pub offset: u32,
}

pub fn read_pointer(bytes: &[u8], at: usize) -> Result<Pointer, Refusal>
    ensures { said result ≡ pointer_read_at bytes.now at }
{
    if !meter::integer::holds(bytes.len(), at, 27) {
        return Err(Refusal {
            number: fault::OUTSIDE,
            place: bytes.len(),
        });
    }
    let header = crate::header::read_header(bytes, at)?;
    if header.class != 3 || header.size != 27 {
        return Err(Refusal {
            number: fault::MALFORMED,
            place: 0,
        });
    }
    Ok(Pointer {
        header,
        class: bytes[at + 20],
        group: bytes[at + 21],
        subclass: bytes[at + 22],
        offset: crate::header::word_at(bytes, at + 23),
    })
}

#[tactic(auto, unfolding(crate::specs::Pointer::is_pointer))]
fn is_pointer(pointer: Pointer) -> bool
    ensures { result ≡ is_pointer pointer }
{
    let header = pointer.header;
    crate::header::is_header(header) && header.class == 3 && header.size == 27
}

// The 27 bytes of a pointer record at the start of the room.
fn put_pointer(room: &mut [u8], pointer: Pointer)
    requires { (27 ≤ length room.old) × (is_header pointer.header ≡ true) }
    ensures { room.new ≡ put_pointer room.old pointer }
{
    crate::header::put_header(room, pointer.header);
    room[20] = pointer.class;
    room[21] = pointer.group;
    room[22] = pointer.subclass;
    crate::header::put_word(room, 23, pointer.offset);
}

pub fn write_pointer(room: &mut [u8], pointer: Pointer) -> Result<usize, Refusal>
    ensures writes_pointer { WritesPointer room.old pointer result room.new }
    ensures reads_back { PointerBack pointer result room.new }
{
    if !is_pointer(pointer) {
        return Err(Refusal {
            number: fault::MALFORMED,
            place: 0,
        });
    }
    if room.len() < 27 {
        return Err(Refusal {
            number: fault::ROOM,
            place: 27,
        });
    }
    put_pointer(room, pointer);
    Ok(27)
}
