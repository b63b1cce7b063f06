// Scaled numbers: read, written, rounded, and as a meter shows them.
ghost use Rattle.std.specs.Prelude.{◌≡◌};
ghost use Rattle.told.specs.Given.{is_set, scaled_given};
ghost use Rattle.handheld.specs.Scaled.{scaled6, ScaledTold, WriteScaledTold, decimal4, RoundedTold};
ghost use Rattle.handheld.specs.Scaled.{reading4, ReadingTold};

use meter::integer::bits_of;
use meter::scaled::{Reading, Scaled};
use told::given::is_set;
use told::put::{one, told, written};

fn scaled_numbers(x: Option<Scaled>) -> [u64; 6]
    ensures { result ≡ scaled6 x }
{
    match x {
        None => [0; 6],
        Some(n) => [0, 0, 1, bits_of(n.integer), bits_of(i64::from(n.scale)), 0],
    }
}

// The scaled number in the 1 + width bytes from `at` on: 0, 0, whether it is defined, integer and scale in two's complement, 0.
#[unsafe(no_mangle)]
pub extern "C" fn wl_read_scaled(
    bytes: &[u8],
    at: usize,
    width: usize,
    signed: u8,
    answer: &mut [u64; 6],
)
    ensures { ScaledTold bytes.now at width signed answer.new }
{
    *answer = told(
        meter::scaled::read_scaled(bytes, at, width, is_set(signed)),
        scaled_numbers,
    );
}

// A scaled number into the first 1 + width bytes of the room: 0, 0, the bytes written, 0.
#[unsafe(no_mangle)]
pub extern "C" fn wl_write_scaled(
    room: &mut [u8],
    width: usize,
    signed: u8,
    defined: u8,
    integer: i64,
    scale: i8,
    answer: &mut [u64; 4],
)
    ensures { WriteScaledTold room.old width signed
        (scaled_given (is_set defined) integer scale) room.new answer.new }
{
    let x = told::given::scaled(defined, integer, scale);
    *answer = written(meter::scaled::write_scaled(room, width, is_set(signed), x));
}

fn decimal_numbers(x: Option<i64>) -> [u64; 4]
    ensures { result ≡ decimal4 x }
{
    match x {
        None => [0; 4],
        Some(z) => [0, 0, 1, bits_of(z)],
    }
}

// A scaled number rounded to decimals: 0, 0, whether it is defined, the whole number of units of the last decimal in two's complement.
#[unsafe(no_mangle)]
pub extern "C" fn wl_round(
    defined: u8,
    integer: i64,
    scale: i8,
    decimals: i8,
    answer: &mut [u64; 4],
)
    ensures { RoundedTold (scaled_given (is_set defined) integer scale) decimals answer.new }
{
    let x = told::given::scaled(defined, integer, scale);
    *answer = told(meter::scaled::round_to(x, decimals), decimal_numbers);
}

fn reading_numbers(x: Reading) -> [u64; 4]
    ensures { result ≡ reading4 x }
{
    match x {
        Reading::Missing => one(0),
        Reading::Whole(_) => one(1),
        Reading::Between(_) => one(2),
    }
}

// The reading of a scaled number: 0, 0, 0 where it is missing, 1 where it is whole, 2 where it is between, 0; its f64 goes into the
// value.
#[unsafe(no_mangle)]
pub extern "C" fn wl_reading(
    defined: u8,
    integer: i64,
    scale: i8,
    value: &mut f64,
    answer: &mut [u64; 4],
)
    ensures { ReadingTold (scaled_given (is_set defined) integer scale)
        value.old value.new answer.new }
{
    let found = meter::scaled::reading_of(told::given::scaled(defined, integer, scale));
    if let Ok(Reading::Whole(v) | Reading::Between(v)) = found {
        *value = v;
    }
    *answer = told(found, reading_numbers);
}
