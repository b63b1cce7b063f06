// Record headers, the 20 bytes at the start of each record.
ghost use Rattle.std.specs.Prelude.{◌≡◌, true, ◌+◌, ◌≤◌, length};
ghost use Rattle.calendar.specs.Said.{said};
ghost use Rattle.meter.specs.Integer.{be_at, stored};
ghost use Rattle.meter.specs.Time.{is_time, bits_of};
ghost use Rattle.record.specs.Header.{size_there, is_class, is_group, is_lead, is_header};
ghost use Rattle.record.specs.Header.{header_read_at, put_header, WritesHeader, HeaderBack};

use calendar::{Refusal, fault};
use meter::integer::holds;
use meter::time::Time;

// Class and group are numbers, and no enums: `write_header` promises 21 for one that is unknown, which an enum would not let a caller hand in.
#[derive(Clone, Copy)]
pub struct Header {
    pub class: u8,
    pub group: u8,
    pub subclass: u8,
    pub version: u8,
    pub size: u32,
    pub start: Option<Time>,
    pub stop: Option<Time>,
}

// The number in the 4 bytes from `at` on.
pub(crate) fn word_at(bytes: &[u8], at: usize) -> u32
    requires { at + 4 ≤ length bytes.now }
    ensures { result ≡ be_at bytes.now at 4 }
{
    match meter::integer::read_unsigned(bytes, at, 4) {
        Ok(v) => v as u32,
        Err(_) => 0,
    }
}

// The size of the record whose header starts at `at`, or 0 where its first 8 bytes are not all there.
pub fn size_at(bytes: &[u8], at: usize) -> usize
    ensures { result ≡ size_there bytes.now at }
{
    if !holds(bytes.len(), at, 8) {
        return 0;
    }
    word_at(bytes, at + 4) as usize
}

// A class of 002's Table 13: MPHR, SPHR, IPR, GEADR, GIADR, VEADR, VIADR, MDR.
#[tactic(auto, unfolding(crate::specs::Header::is_class))]
pub fn is_class(class: u8) -> bool
    ensures { result ≡ is_class class }
{
    matches!(class, 1..=8)
}

// A group of 002's Table 14. It has no 14: an archive record is 99.
#[tactic(auto, unfolding(crate::specs::Header::is_group))]
pub fn is_group(group: u8) -> bool
    ensures { result ≡ is_group group }
{
    matches!(group, 0..=13 | 15 | 99)
}

// What a header needs but for its times.
#[tactic(auto, unfolding(crate::specs::Header::is_lead))]
fn is_lead(class: u8, group: u8, size: u32) -> bool
    ensures { result ≡ is_lead class group size }
{
    is_class(class) && is_group(group) && 20 <= size
}

// A time is right where `meter` writes it.
fn is_time(time: Option<Time>) -> bool
    ensures { result ≡ is_time time }
{
    let mut scratch = [0u8; 6];
    meter::time::write_time(&mut scratch, time).is_ok()
}

// "not for start after stop": the order of the two times is not looked at.
#[tactic(auto, unfolding(crate::specs::Header::is_header))]
pub(crate) fn is_header(header: Header) -> bool
    ensures { result ≡ is_header header }
{
    is_lead(header.class, header.group, header.size)
        && is_time(header.start)
        && is_time(header.stop)
}

pub fn read_header(bytes: &[u8], at: usize) -> Result<Header, Refusal>
    ensures { said result ≡ header_read_at bytes.now at }
{
    if !holds(bytes.len(), at, 20) {
        return Err(Refusal {
            number: fault::OUTSIDE,
            place: bytes.len(),
        });
    }
    let start = meter::time::read_time(bytes, at + 8)?;
    let stop = meter::time::read_time(bytes, at + 14)?;
    let size = word_at(bytes, at + 4);
    if !is_lead(bytes[at], bytes[at + 1], size) {
        return Err(Refusal {
            number: fault::MALFORMED,
            place: 0,
        });
    }
    Ok(Header {
        class: bytes[at],
        group: bytes[at + 1],
        subclass: bytes[at + 2],
        version: bytes[at + 3],
        size,
        start,
        stop,
    })
}

// The 4 bytes of a number from `at` on.
pub(crate) fn put_word(room: &mut [u8], at: usize, word: u32)
    requires { at + 4 ≤ length room.old }
    ensures { room.new ≡ stored room.old at 4 word }
{
    let _ = meter::integer::write_unsigned(&mut room[at..], 4, word as u64);
}

// The 6 bytes of a time from `at` on.
fn put_time(room: &mut [u8], at: usize, time: Option<Time>)
    requires { (at + 6 ≤ length room.old) × (is_time time ≡ true) }
    ensures { room.new ≡ stored room.old at 6 (bits_of time) }
{
    let _ = meter::time::write_time(&mut room[at..], time);
}

// The 20 bytes of a header at the start of the room.
pub(crate) fn put_header(room: &mut [u8], header: Header)
    requires { (20 ≤ length room.old) × (is_header header ≡ true) }
    ensures { room.new ≡ put_header room.old header }
{
    room[0] = header.class;
    room[1] = header.group;
    room[2] = header.subclass;
    room[3] = header.version;
    put_word(room, 4, header.size);
    put_time(room, 8, header.start);
    put_time(room, 14, header.stop);
}

pub fn write_header(room: &mut [u8], header: Header) -> Result<usize, Refusal>
    ensures writes_header { WritesHeader room.old header result room.new }
    ensures reads_back { HeaderBack header result room.new }
{
    if !is_header(header) {
        return Err(Refusal {
            number: fault::MALFORMED,
            place: 0,
        });
    }
    if room.len() < 20 {
        return Err(Refusal {
            number: fault::ROOM,
            place: 20,
        });
    }
    put_header(room, header);
    Ok(20)
}
