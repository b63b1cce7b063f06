// The field queries, the fields by name and by number, and the ground point.
ghost use Rattle.std.specs.Prelude.{◌≡◌};
ghost use Rattle.std.specs.declared.result.Result.TheVariants.{Ok};
ghost use Rattle.warpladle.specs.Fields.{NumberTold, long_field, TimeTold, text_said, TextTold};
ghost use Rattle.warpladle.specs.Fields.{FieldTold, kind_number, described_said, DescribedTold};
ghost use Rattle.warpladle.specs.Fields.{point_said, PointTold};
ghost use Rattle.query.specs.Query.{TimeIs};

use crate::put::value_numbers;
use calendar::Refusal;
use meter::general::Moment;
use mphr::layout::Place;
use query::{GroundPoint, Part};
use text::Kind;
use told::put::{Answer, count, moment_numbers, one, told};

// The number of field k: 0, 0, whether it is defined, the value in two's complement.
#[unsafe(no_mangle)]
pub extern "C" fn wl_number_field(bytes: &[u8], k: usize, answer: &mut [u64; 4])
    ensures { NumberTold bytes.now k answer.new }
{
    *answer = told(query::number_field(bytes, k), value_numbers);
}

fn is_long_field(k: usize) -> bool
    ensures { result ≡ long_field k }
{
    matches!(
        mphr::layout::field_place(k),
        Ok(Place {
            kind: Kind::LongTime,
            ..
        })
    )
}

// The time of field k, as the field is wide.
fn time_of(bytes: &[u8], k: usize) -> Result<Option<Moment>, Refusal>
    ensures { TimeIs bytes.now k (long_field k) result }
{
    if is_long_field(k) {
        query::long_time_field(bytes, k)
    } else {
        query::time_field(bytes, k)
    }
}

// The time of field k: 0, 0, whether it is defined, year, month, day, hour, minute, second, millisecond, 0, 0.
#[unsafe(no_mangle)]
pub extern "C" fn wl_time_field(bytes: &[u8], k: usize, answer: &mut [u64; 12])
    ensures { TimeTold bytes.now k answer.new }
{
    *answer = told(time_of(bytes, k), moment_numbers);
}

fn part_numbers(part: Part) -> [u64; 4]
    ensures { result ≡ text_said (Ok part) }
{
    [0, 0, part.start as u64, part.width as u64]
}

// The text of field k: 0, 0, where it starts, its width.
#[unsafe(no_mangle)]
pub extern "C" fn wl_text_field(bytes: &[u8], k: usize, answer: &mut [u64; 4])
    ensures { TextTold bytes.now k answer.new }
{
    *answer = told(query::text_field(bytes, k), part_numbers);
}

// The field of a name: 0, 0, its number, 0.
#[unsafe(no_mangle)]
pub extern "C" fn wl_field_named(name: &[u8], answer: &mut [u64; 4])
    ensures { FieldTold name.now answer.new }
{
    *answer = told(mphr::names::field_named(name), count);
}

// No `From`: `Kind` and u64 are both of other crates.
fn kind_number(kind: Kind) -> u64
    ensures { result ≡ kind_number kind }
{
    match kind {
        Kind::Text => 0,
        Kind::Unsigned => 1,
        Kind::Count => 2,
        Kind::Signed => 3,
        Kind::Time => 4,
        Kind::LongTime => 5,
    }
}

fn described_numbers(found: Result<Place, Refusal>, named: Result<usize, Refusal>) -> [u64; 6]
    ensures { result ≡ described_said (found, named) }
{
    match (found, named) {
        (Ok(place), Ok(n)) => {
            let kind = kind_number(place.kind);
            [0, 0, place.start as u64, place.width as u64, kind, n as u64]
        }
        (Err(r), _) | (Ok(_), Err(r)) => <[u64; 6] as Answer>::refusal(r),
    }
}

// Field k: 0, 0, where its line starts, its width, its kind, the bytes of its name, which stands at the start of the room.
#[unsafe(no_mangle)]
pub extern "C" fn wl_field(k: usize, name: &mut [u8], answer: &mut [u64; 6])
    ensures { DescribedTold k name.old name.new answer.new }
{
    let named = mphr::names::write_name(name, k);
    *answer = described_numbers(mphr::layout::field_place(k), named);
}

fn point_numbers(point: Option<GroundPoint>) -> [u64; 4]
    ensures { result ≡ point_said (Ok point) }
{
    match point {
        None => one(0),
        Some(_) => one(1),
    }
}

// The ground point of the start, or of the end where `which` is not 0: 0, 0, whether there is one, 0; latitude and longitude go into
// the point.
#[unsafe(no_mangle)]
pub extern "C" fn wl_ground_point(
    bytes: &[u8],
    which: u8,
    point: &mut [f64; 2],
    answer: &mut [u64; 4],
)
    ensures { PointTold bytes.now which point.old point.new answer.new }
{
    let found = query::ground_point(bytes, told::given::is_set(which));
    if let Ok(Some(g)) = found {
        *point = [g.latitude, g.longitude];
    }
    *answer = told(found, point_numbers);
}
