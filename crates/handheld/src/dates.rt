// Dates of the calendar, and day numbers both ways.
ghost use Rattle.std.specs.Prelude.{◌≡◌};
ghost use Rattle.calendar.specs.Calendar.{date};
ghost use Rattle.told.specs.Told.{one4};
ghost use Rattle.handheld.specs.Dates.{IsDateTold, DateTold, DayTold};

use calendar::Date;
use told::put::{one, told};

// Whether a day is a date of the calendar, years 0000 to 9999: 0, 0, 1 where it is and 0 where it is not, 0.
#[unsafe(no_mangle)]
pub extern "C" fn wl_is_date(year: u16, month: u8, day: u8, answer: &mut [u64; 4])
    ensures { IsDateTold (date year month day) answer.new }
{
    *answer = one(u64::from(calendar::is_date(Date { year, month, day })));
}

// The date of a day number: 0, 0, year, month, day, 0.
#[unsafe(no_mangle)]
pub extern "C" fn wl_date_of(day: u16, answer: &mut [u64; 6])
    ensures { DateTold day answer.new }
{
    let x = calendar::date_of(day);
    *answer = [0, 0, x.year as u64, x.month as u64, x.day as u64, 0];
}

fn day_numbers(n: u16) -> [u64; 4]
    ensures { result ≡ one4 n }
{
    one(n as u64)
}

// The day number of a date: 0, 0, the number, 0.
#[unsafe(no_mangle)]
pub extern "C" fn wl_day_number(year: u16, month: u8, day: u8, answer: &mut [u64; 4])
    ensures { DayTold (date year month day) answer.new }
{
    *answer = told(calendar::day_number(Date { year, month, day }), day_numbers);
}
