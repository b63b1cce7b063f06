// Lines of the main header, written whole: name, "= ", value and line feed. 22 unless the value fits the field, then 18.
ghost use Rattle.std.specs.Prelude.{◌≡◌, true, ◌+◌, ◌≤◌, ◌<◌, length};
ghost use Rattle.mphr.specs.Layout.{width_of, kind_of};
ghost use Rattle.mphr.specs.Lines.{count_fits, is_long, text_on, number_on, time_on, put_name, put_frame, BeginsLine};
ghost use Rattle.mphr.specs.Lines.{WritesTextLine, WritesNumberLine, WritesTimeLine};

use crate::layout::{byte_of, kind, width, words};
use calendar::{Refusal, fault};
use meter::general::Moment;
use text::Kind;

#[tactic(auto, unfolding(crate::specs::Lines::text_on, crate::specs::Lines::text_fits))]
fn text_on(k: usize, text: &[u8]) -> bool
    ensures { result ≡ text_on k text.now }
{
    if k > 71 {
        return false;
    }
    match kind(k) {
        Kind::Text => text::fits_text(width(k), text),
        _ => false,
    }
}

fn count_fits(w: usize, number: Option<i64>) -> bool
    ensures { result ≡ count_fits w number }
{
    match number {
        None => false,
        Some(_) => text::fits_number(false, w, number),
    }
}

#[tactic(auto, unfolding(crate::specs::Lines::number_on, crate::specs::Lines::number_fits))]
fn number_on(k: usize, number: Option<i64>) -> bool
    ensures { result ≡ number_on k number }
{
    if k > 71 {
        return false;
    }
    match kind(k) {
        Kind::Unsigned => text::fits_number(false, width(k), number),
        Kind::Count => count_fits(width(k), number),
        Kind::Signed => text::fits_number(true, width(k), number),
        _ => false,
    }
}

#[tactic(auto, unfolding(crate::specs::Lines::is_long))]
fn is_long(k: usize) -> bool
    requires { k < 72 }
    ensures { result ≡ is_long (kind_of k) }
{
    matches!(kind(k), Kind::LongTime)
}

#[tactic(auto, unfolding(crate::specs::Lines::time_on, crate::specs::Lines::time_fits))]
fn time_on(k: usize, time: Option<Moment>) -> bool
    ensures { result ≡ time_on k time }
{
    if k > 71 {
        return false;
    }
    match kind(k) {
        Kind::Time => meter::general::fits_general(false, time),
        Kind::LongTime => meter::general::fits_general(true, time),
        _ => false,
    }
}

// The first n bytes of the padded name of field k, at the start of the room.
pub(crate) fn put_name(room: &mut [u8], k: usize, n: usize)
    requires { (k < 72) × (n ≤ 30) × (n ≤ length room.old) }
    ensures { room.new ≡ put_name room.old k n }
{
    let row = words(k);
    for i in (0..n).rev() {
        room[i] = byte_of(row[i / 8], i % 8);
    }
}

// The name padded to 30, "= ", and the line feed after w bytes of value.
fn put_frame(room: &mut [u8], k: usize, w: usize)
    requires { (k < 72) × (w + 33 ≤ length room.old) }
    ensures { room.new ≡ put_frame k w room.old }
{
    put_name(room, k, 30);
    room[30] = 61;
    room[31] = 32;
    room[32 + w] = 10;
}

// 22 unless the value fits the field, then 18; where neither is refused, the line's frame.
fn begin_line(room: &mut [u8], k: usize, fits: bool) -> Result<usize, Refusal>
    requires { fits ≡ true → k < 72 }
    ensures { BeginsLine room.old k fits result room.new }
{
    if !fits {
        return Err(Refusal {
            number: fault::NO_FIELD,
            place: 0,
        });
    }
    let w = width(k);
    if room.len() < w + 33 {
        return Err(Refusal {
            number: fault::ROOM,
            place: w + 33,
        });
    }
    put_frame(room, k, w);
    Ok(w + 33)
}

pub fn write_text_line(room: &mut [u8], k: usize, text: &[u8]) -> Result<usize, Refusal>
    ensures { WritesTextLine room.old k text.now result room.new }
{
    let begun = begin_line(room, k, text_on(k, text));
    let Ok(_) = begun else {
        return begun;
    };
    let _ = text::write_text(&mut room[32..], text.len(), text);
    begun
}

pub fn write_number_line(room: &mut [u8], k: usize, number: Option<i64>) -> Result<usize, Refusal>
    ensures { WritesNumberLine room.old k number result room.new }
{
    let begun = begin_line(room, k, number_on(k, number));
    let Ok(_) = begun else {
        return begun;
    };
    let _ = text::write_number(&mut room[32..], width(k), true, number);
    begun
}

pub fn write_time_line(room: &mut [u8], k: usize, time: Option<Moment>) -> Result<usize, Refusal>
    ensures { WritesTimeLine room.old k time result room.new }
{
    let begun = begin_line(room, k, time_on(k, time));
    let Ok(_) = begun else {
        return begun;
    };
    let _ = meter::general::write_general(&mut room[32..], is_long(k), time);
    begun
}
