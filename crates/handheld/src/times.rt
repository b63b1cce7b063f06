// Times: read, written, in order, as text and back.
ghost use Rattle.std.specs.Prelude.{◌≡◌};
ghost use Rattle.told.specs.Given.{is_set, time_given};
ghost use Rattle.told.specs.Told.{one4};
ghost use Rattle.handheld.specs.Times.{TimeReadTold, TextTimeTold, order_number, OrderTold};
ghost use Rattle.handheld.specs.Times.{WriteTimeTold, TimeTextTold};

use meter::time::Time;
use std::cmp::Ordering;
use told::put::{one, time_numbers, told, written};

// The time in the 6 bytes from `at` on: 0, 0, whether it is defined, day, millisecond, 0.
#[unsafe(no_mangle)]
pub extern "C" fn wl_read_time(bytes: &[u8], at: usize, answer: &mut [u64; 6])
    ensures { TimeReadTold bytes.now at answer.new }
{
    *answer = told(meter::time::read_time(bytes, at), time_numbers);
}

// The time in the 18 bytes of text from `at` on, in the same numbers.
#[unsafe(no_mangle)]
pub extern "C" fn wl_text_time(bytes: &[u8], at: usize, answer: &mut [u64; 6])
    ensures { TextTimeTold bytes.now at answer.new }
{
    *answer = told(meter::general::text_time(bytes, at), time_numbers);
}

// A time into the first 6 bytes of the room: 0, 0, the bytes written, 0.
#[unsafe(no_mangle)]
pub extern "C" fn wl_write_time(
    room: &mut [u8],
    defined: u8,
    day: u16,
    milli: u32,
    answer: &mut [u64; 4],
)
    ensures { WriteTimeTold room.old (time_given (is_set defined) day milli) room.new answer.new }
{
    let t = told::given::time(defined, day, milli);
    *answer = written(meter::time::write_time(room, t));
}

// A time as text into the first 18 bytes of the room: 0, 0, the bytes written, 0.
#[unsafe(no_mangle)]
pub extern "C" fn wl_time_text(
    room: &mut [u8],
    defined: u8,
    day: u16,
    milli: u32,
    answer: &mut [u64; 4],
)
    ensures { TimeTextTold room.old (time_given (is_set defined) day milli) room.new answer.new }
{
    let t = told::given::time(defined, day, milli);
    *answer = written(meter::general::time_text(room, t));
}

fn order_numbers(order: Ordering) -> [u64; 4]
    ensures { result ≡ one4 (order_number order) }
{
    one(match order {
        Ordering::Less => 0,
        Ordering::Equal => 1,
        Ordering::Greater => 2,
    })
}

// The order of two times: 0, 0, 0 where the first is before, 1 where they are the same, 2 where it is after, 0.
#[unsafe(no_mangle)]
pub extern "C" fn wl_time_order(
    defined: u8,
    day: u16,
    milli: u32,
    other_defined: u8,
    other_day: u16,
    other_milli: u32,
    answer: &mut [u64; 4],
)
    ensures { OrderTold (time_given (is_set defined) day milli)
        (time_given (is_set other_defined) other_day other_milli) answer.new }
{
    let t = told::given::time(defined, day, milli);
    let u = told::given::time(other_defined, other_day, other_milli);
    *answer = told(meter::time::time_order(t, u), order_numbers);
}
