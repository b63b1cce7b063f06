// Queries of a product, arriving or whole: a record by its number, a field of the main header by its number, the ground point.
#![tactic(auto)]

ghost use Rattle.std.specs.Prelude.{◌≡◌, true, false, Ok};
ghost use Rattle.query.specs.Query.{refusal_of, StartOf, RecordIs, Reachable, sort_of, times_of, FieldIs, TextIs};
ghost use Rattle.query.specs.Query.{NumberIs, TimeIs, latitude_field, point_of, PointIs, Exact};

use calendar::{Refusal, fault};
use judge::arrival::{Arrival, judge_arrival};
use meter::general::Moment;
use record::header::{Header, size_at};
use text::Kind;

#[derive(Clone, Copy)]
pub struct Record {
    pub start: usize,
    pub header: Header,
}

// Where the value of a field stands.
#[derive(Clone, Copy)]
pub struct Part {
    pub start: usize,
    pub width: usize,
}

// Degrees, north and east.
#[derive(Clone, Copy)]
pub struct GroundPoint {
    pub latitude: f64,
    pub longitude: f64,
}

// The sorts of fields; a number may have a sign or not.
#[derive(Clone, Copy, PartialEq, Eq)]
enum Sort {
    Numbers,
    Times,
    LongTimes,
    Texts,
}

// The refusal of an arrival that is refused; it is asked of no other.
fn refusal_of(judged: Arrival) -> Refusal
    ensures { result ≡ refusal_of judged }
{
    match judged {
        Arrival::Refused(r) => r,
        Arrival::Waiting { count: _, end: _ } => Refusal {
            number: 0,
            place: 0,
        },
    }
}

// Where record k starts: the main header is record 0, and the others follow one another.
fn start_of(s: &[u8], k: usize) -> usize
    requires { Reachable s.now k }
    ensures { StartOf s.now k result }
{
    if k == 0 {
        return 0;
    }
    let mut at: usize = 3307;
    for _n in 1..k {
        at += size_at(s, at);
    }
    at
}

// The start and the header of record k.
pub fn record_at(bytes: &[u8], k: usize) -> Result<Record, Refusal>
    ensures { RecordIs bytes.now k result }
{
    let judged = judge_arrival(bytes);
    let Arrival::Waiting { count, end: _ } = judged else {
        return Err(refusal_of(judged));
    };
    if count <= k {
        return Err(Refusal {
            number: fault::NO_RECORD,
            place: count,
        });
    }
    let start = start_of(bytes, k);
    let header = record::header::read_header(bytes, start)?;
    Ok(Record { start, header })
}

fn sort_of(kind: Kind) -> Sort
    ensures { result ≡ sort_of kind }
{
    match kind {
        Kind::Unsigned | Kind::Count | Kind::Signed => Sort::Numbers,
        Kind::Time => Sort::Times,
        Kind::LongTime => Sort::LongTimes,
        Kind::Text => Sort::Texts,
    }
}

// The part of a field of the sort: the judge's refusal of the main header's bytes, then 17, then 22.
fn field_at(bytes: &[u8], k: usize, sort: Sort) -> Result<Part, Refusal>
    ensures { FieldIs bytes.now k sort result }
{
    let n = bytes.len().min(3307);
    let judged = judge_arrival(&bytes[..n]);
    let Arrival::Waiting { count: _, end: _ } = judged else {
        return Err(refusal_of(judged));
    };
    if n < 3307 {
        return Err(Refusal {
            number: fault::UNFINISHED,
            place: n,
        });
    }
    match mphr::layout::field_place(k) {
        Ok(place) if sort_of(place.kind) == sort => Ok(Part {
            start: place.start + 32,
            width: place.width,
        }),
        _ => Err(Refusal {
            number: fault::NO_FIELD,
            place: 0,
        }),
    }
}

// The number of field k. A field that the judge let pass has a sign only where it may, so one reading serves the three kinds.
pub fn number_field(bytes: &[u8], k: usize) -> Result<Option<i64>, Refusal>
    ensures { NumberIs bytes.now k result }
{
    let part = field_at(bytes, k, Sort::Numbers)?;
    text::read_number(bytes, part.start, part.width, true)
}

fn times_of(long: bool) -> Sort
    ensures { result ≡ times_of long }
{
    if long { Sort::LongTimes } else { Sort::Times }
}

fn time_of(bytes: &[u8], k: usize, long: bool) -> Result<Option<Moment>, Refusal>
    ensures { TimeIs bytes.now k long result }
{
    let part = field_at(bytes, k, times_of(long))?;
    meter::general::read_general(bytes, part.start, long)
}

// The time of field k.
pub fn time_field(bytes: &[u8], k: usize) -> Result<Option<Moment>, Refusal>
    ensures { TimeIs bytes.now k false result }
{
    time_of(bytes, k, false)
}

// The long time of field k.
pub fn long_time_field(bytes: &[u8], k: usize) -> Result<Option<Moment>, Refusal>
    ensures { TimeIs bytes.now k true result }
{
    time_of(bytes, k, true)
}

// Where the text of field k stands.
pub fn text_field(bytes: &[u8], k: usize) -> Result<Part, Refusal>
    ensures { TextIs bytes.now k result }
{
    field_at(bytes, k, Sort::Texts)
}

fn point_of(latitude: Option<i64>, longitude: Option<i64>) -> Option<GroundPoint>
    requires { Exact latitude × Exact longitude }
    ensures { Ok result ≡ point_of latitude longitude }
{
    match (latitude, longitude) {
        (Some(north), Some(east)) => Some(GroundPoint {
            latitude: (north as f64) / 1000.0,
            longitude: (east as f64) / 1000.0,
        }),
        _ => None,
    }
}

// SUBSAT_LATITUDE_START or SUBSAT_LATITUDE_END; the longitude's field is the next.
fn latitude_of(end: bool) -> usize
    ensures { result ≡ latitude_field end }
{
    if end { 51 } else { 49 }
}

// The point below the satellite where the product starts, or where it ends.
pub fn ground_point(bytes: &[u8], end: bool) -> Result<Option<GroundPoint>, Refusal>
    ensures { PointIs bytes.now end result }
{
    let k = latitude_of(end);
    let latitude = number_field(bytes, k)?;
    let longitude = number_field(bytes, k + 1)?;
    Ok(point_of(latitude, longitude))
}
