// The main header of a new product: the old one, with lines set anew. Where a line stands is said by `mphr`, its value written by `text`
// and `meter`.
ghost use Rattle.std.specs.Prelude.{◌≡◌, true, ◌+◌, ◌≤◌, ◌<◌, length, get_or};
ghost use Rattle.std.proofs.lemmas.List.Edits.{sets};
ghost use Rattle.meter.specs.Time.{is_time};
ghost use Rattle.mphr.specs.Layout.{width_of, line_start};
ghost use Rattle.parts.specs.JoinHeader.{added, SumsFit};
ghost use Rattle.parts.specs.Pass.{FourAgree};
ghost use Rattle.parts.specs.Rewritten.{value_of, number, fits_line};
ghost use Rattle.parts.specs.CutHeader.{to_second, stamp};
ghost use Rattle.rewrite.specs.Lining.{Adds, NumberFor, number_line, whole_number, Totals, unknown_lines, total_lines};
ghost use Rattle.rewrite.specs.Lining.{timed, time_lines, HeaderFor, HeaderIs};
ghost use Rattle.bytewise.specs.Comparing.{Decides, SameIs};
ghost use Rattle.rewrite.specs.Joining.{Headers, sum_lines, end_lines, JoinHeaderFor, JoinHeaderIs};

use crate::copy::copy;
use bytewise::is_same;
use meter::time::Time;
use mphr::layout::field_place;
use text::{Kind, count_at};

// The value of line k.
fn set_value(header: &mut [u8], k: usize, value: &[u8])
    requires { (k < 72) × (length header.old ≡ 3307) × (length value.now ≡ width_of k) }
    ensures { header.new ≡ sets header.old (line_start k + 32) value.now }
{
    let Ok(place) = field_place(k) else {
        return;
    };
    copy(value, 0, value.len(), header, place.start + 32);
}

fn set_number(header: &mut [u8], k: usize, number: Option<i64>)
    requires { (length header.old ≡ 3307) × NumberFor k number }
    ensures { Adds header.old header.new (number_line k number) }
{
    let Ok(place) = field_place(k) else {
        return;
    };
    let w = place.width;
    let mut digits = [0u8; 17];
    let _ = text::write_number(&mut digits[..w], w, false, number);
    set_value(header, k, &digits[..w]);
}

fn whole(n: usize) -> Option<i64>
    requires { n ≤ 2147483647 }
    ensures { result ≡ whole_number n }
{
    Some(n as i64)
}

// A time cut to whole seconds: the long text without the digits of its millisecond.
fn stamp_of(time: Option<Time>) -> [u8; 15]
    requires { is_time time ≡ true }
    ensures { result ≡ stamp (to_second time) }
{
    let mut long = [0u8; 18];
    let _ = meter::general::time_text(&mut long, time);
    let mut stamp = [90u8; 15];
    copy(&long, 0, 14, &mut stamp, 0);
    stamp
}

// "The degraded counts and the three durations become `x`", "SUBSETTED_PRODUCT (`T`)".
fn set_unknown(header: &mut [u8])
    requires { length header.old ≡ 3307 }
    ensures { Adds header.old header.new unknown_lines }
{
    set_value(header, 71, b"T");
    set_number(header, 70, None);
    set_number(header, 69, None);
    set_number(header, 68, None);
    set_number(header, 67, None);
    set_number(header, 66, None);
    set_number(header, 65, None);
    set_number(header, 64, None);
}

// The totals, of all records and of each class.
fn set_totals(header: &mut [u8], totals: &[usize])
    requires { (length header.old ≡ 3307) × Totals totals.now }
    ensures { Adds header.old header.new (total_lines totals.now 0 9) }
{
    for j in (0..9).rev() {
        set_number(header, 55 + j, whole(totals[j]));
    }
}

// The name of the product s, with two times.
fn name_of(s: &[u8], first: &[u8; 15], last: &[u8; 15]) -> [u8; 67]
    requires { 3307 ≤ length s.now }
    ensures { result ≡ timed (value_of s.now 0) first.now last.now }
{
    let mut name = [0u8; 67];
    copy(s, 52, 67, &mut name, 0);
    copy(first, 0, 15, &mut name, 16);
    copy(last, 0, 15, &mut name, 32);
    name
}

// "SENSING_START, SENSING_END, the name's two times".
fn set_times(header: &mut [u8], s: &[u8], start: Option<Time>, stop: Option<Time>)
    requires { (length header.old ≡ 3307) × (3307 ≤ length s.now) × (is_time start ≡ true) × (is_time stop ≡ true) }
    ensures { Adds header.old header.new (time_lines (value_of s.now 0) start stop) }
{
    let first = stamp_of(start);
    let last = stamp_of(stop);
    let name = name_of(s, &first, &last);
    set_value(header, 11, &last);
    set_value(header, 10, &first);
    set_value(header, 0, &name);
}

// The main header of the cut of s.
pub(crate) fn put_header(
    s: &[u8],
    start: Option<Time>,
    stop: Option<Time>,
    totals: &[usize],
    size: usize,
    header: &mut [u8],
)
    requires { HeaderFor s.now start stop totals.now size header.old }
    ensures { HeaderIs s.now start stop totals.now size header.new }
{
    copy(s, 0, 3307, header, 0);
    set_unknown(header);
    set_times(header, s, start, stop);
    set_totals(header, totals);
    set_number(header, 28, whole(size));
}

// The value of line k is the same in both.
fn is_agreed(m: &[u8], n: &[u8], k: usize) -> bool
    requires { (k < 72) × (length m.now ≡ 3307) × (length n.now ≡ 3307) }
    ensures { SameIs (value_of m.now k) (value_of n.now k) result }
{
    let Ok(place) = field_place(k) else {
        return false;
    };
    is_same(m, place.start + 32, n, place.start + 32, place.width)
}

// "of equal INSTRUMENT_ID, PRODUCT_TYPE, PROCESSING_LEVEL and SPACECRAFT_ID".
pub(crate) fn four_agree(m: &[u8], n: &[u8]) -> bool
    requires { (length m.now ≡ 3307) × (length n.now ≡ 3307) }
    ensures { Decides (FourAgree m.now n.now) result }
{
    is_agreed(m, n, 5) && is_agreed(m, n, 7) && is_agreed(m, n, 8) && is_agreed(m, n, 9)
}

// The sum of the numbers of line k, one of 64 to 70; undefined where either is.
fn sum_on(m: &[u8], n: &[u8], k: usize) -> Option<i64>
    requires { Headers m.now n.now × (64 ≤ k) × (k ≤ 70) }
    ensures { result ≡ added m.now n.now k }
{
    let Ok(place) = field_place(k) else {
        return None;
    };
    let at = place.start + 32;
    let w = place.width;
    if !text::is_value(m, at, w, Kind::Count) {
        return None;
    }
    if !text::is_value(n, at, w, Kind::Count) {
        return None;
    }
    whole((count_at(m, at, w) + count_at(n, at, w)) as usize)
}

fn sum_fits(m: &[u8], n: &[u8], k: usize) -> bool
    requires { Headers m.now n.now × (64 ≤ k) × (k ≤ 70) }
    ensures { result ≡ fits_line k (number (added m.now n.now k)) }
{
    let Ok(place) = field_place(k) else {
        return false;
    };
    text::fits_number(false, place.width, sum_on(m, n, k))
}

// "28 .. also for a sum that doesn't fit its field": each does.
pub(crate) fn sums_fit(m: &[u8], n: &[u8]) -> bool
    requires { Headers m.now n.now }
    ensures { Decides (SumsFit m.now n.now) result }
{
    (64..71).all(|k| sum_fits(m, n, k))
}

// "Counts and durations add, `x` absorbing".
fn set_sums(header: &mut [u8], m: &[u8], n: &[u8])
    requires { (length header.old ≡ 3307) × Headers m.now n.now × SumsFit m.now n.now }
    ensures { Adds header.old header.new (sum_lines m.now n.now 64 7) }
{
    for k in (64..71).rev() {
        set_number(header, k, sum_on(m, n, k));
    }
}

// "the end time and the name's end time come from the second".
fn set_end(header: &mut [u8], m: &[u8], n: &[u8])
    requires { (length header.old ≡ 3307) × Headers m.now n.now }
    ensures { Adds header.old header.new (end_lines m.now n.now) }
{
    let mut end = [0u8; 15];
    copy(n, 780, 15, &mut end, 0);
    set_value(header, 11, &end);
    let mut name = [0u8; 67];
    copy(m, 52, 67, &mut name, 0);
    copy(n, 84, 15, &mut name, 32);
    set_value(header, 0, &name);
}

// The main header of the join of products with the headers m and n.
pub(crate) fn put_join_header(m: &[u8], n: &[u8], totals: &[usize], size: usize, header: &mut [u8])
    requires { JoinHeaderFor m.now n.now totals.now size header.old }
    ensures { JoinHeaderIs m.now n.now totals.now size header.new }
{
    copy(m, 0, 3307, header, 0);
    set_sums(header, m, n);
    set_end(header, m, n);
    set_totals(header, totals);
    set_number(header, 28, whole(size));
}
