// Dates of the Gregorian calendar, years 0000 to 9999, and their day numbers, 0 to 65535 from 1 January 2000.
#![tactic(auto)]

ghost use Rattle.std.specs.Prelude.{◌≡◌, ◌≤◌, ◌<◌};
ghost use Rattle.calendar.specs.Said.{said};
ghost use Rattle.calendar.specs.Calendar.{leap, days_in, is_date, date_of, day_number_of, leap_day, leap_date};
ghost use Rattle.calendar.specs.Closed.{layout_of, month_at, start_of, shift_of, closed_number};

pub mod fault;

// Why nothing else is answered: the paper's number, one of `fault`, and the place that goes with it.
#[derive(Clone, Copy)]
pub struct Refusal {
    pub number: u8,
    pub place: usize,
}

#[derive(Clone, Copy)]
pub struct Date {
    pub year: u16,
    pub month: u8,
    pub day: u8,
}

fn is_leap(year: u32) -> bool
    ensures { result ≡ leap year }
{
    year % 4 == 0 && (year % 100 != 0 || year % 400 == 0)
}

fn days_in(year: u32, month: u32) -> u32
    ensures { result ≡ days_in year month }
{
    match month {
        2 if is_leap(year) => 29,
        2 => 28,
        4 | 6 | 9 | 11 => 30,
        _ => 31,
    }
}

// A date of the calendar, of the years 0000 to 9999.
#[tactic(auto, unfolding(crate::specs::Calendar::is_date))]
pub fn is_date(date: Date) -> bool
    ensures { result ≡ is_date date }
{
    match date {
        Date {
            year: 0..=9999,
            month: 1..=12,
            day: 1..,
        } => { date.day as u32 <= days_in(date.year as u32, date.month as u32) }
        _ => false,
    }
}

// The day of a year, counted from 0, as if the year had a February of 29 days.
fn layout(day: u32, year: u32) -> u32
    requires { day < 366 }
    ensures { result ≡ layout_of day year }
{
    if year % 4 == 0 {
        return day;
    }
    if day < 59 { day } else { day + 1 }
}

// The month of such a day.
fn month_at(day: u32) -> u32
    requires { day < 367 }
    ensures { result ≡ month_at day }
{
    if day < 31 {
        return 1;
    }
    if day < 60 {
        2
    } else {
        (5 * (day - 60) + 2) / 153 + 3
    }
}

// The first such day of a month.
fn start_of(month: u32) -> u32
    requires { (1 ≤ month) × (month ≤ 13) }
    ensures { result ≡ start_of month }
{
    if month < 3 {
        31 * (month - 1)
    } else {
        (153 * (month - 3) + 2) / 5 + 60
    }
}

// The date of a day number, in closed form: 36584 is the number of 1 March 2100, before which a day is missing.
pub fn date_of(day: u16) -> Date
    ensures { result ≡ date_of day }
{
    let n = day as u32;
    let t = n + n / 36584;
    let y = 4 * t / 1461;
    let d = layout(t - (1461 * y + 3) / 4, y);
    let m = month_at(d);
    let s = start_of(m);
    Date {
        year: (2000 + y) as u16,
        month: m as u8,
        day: (d - s + 1) as u8,
    }
}

// 1 from March on in a year with no 29 February, by the rule of four years alone.
fn shift(year: u32, month: u32) -> u32
    ensures { result ≡ shift_of year month }
{
    if year % 4 == 0 {
        return 0;
    }
    if month < 3 { 0 } else { 1 }
}

// The day number of a date of 2000 to 2179, before the limit of 65535 is looked at.
fn closed_number(year: u32, month: u32, day: u32) -> u32
    requires { (year < 180) × (1 ≤ month) × (month ≤ 12) × (1 ≤ day) × (day ≤ 31) }
    ensures { result ≡ closed_number year month day }
{
    let s = start_of(month);
    let t = (1461 * year + 3) / 4 + (s + (day - 1) - shift(year, month));
    t - t / 36585
}

// No date, or none that has a day number.
const NO_DAY: Refusal = Refusal {
    number: fault::MALFORMED,
    place: 0,
};

// The day number of a date; 21 for no date, and for one outside 0 to 65535.
pub fn day_number(date: Date) -> Result<u16, Refusal>
    ensures { said result ≡ day_number_of date }
{
    if !is_date(date) {
        return Err(NO_DAY);
    }
    let year = date.year as u32;
    if year < 2000 {
        return Err(NO_DAY);
    }
    if year > 2179 {
        return Err(NO_DAY);
    }
    let n = closed_number(year - 2000, date.month as u32, date.day as u32);
    if n > 65535 {
        return Err(NO_DAY);
    }
    Ok(n as u16)
}

// Whether the day ends in a leap second.
#[tactic(auto, unfolding(crate::specs::Calendar::leap_day))]
pub fn is_leap_day(day: u16) -> bool
    ensures { result ≡ leap_day day }
{
    matches!(day, 2191 | 3287 | 4564 | 5659 | 6209)
}

// Whether the day of the date does.
pub fn is_leap_date(date: Date) -> bool
    ensures { result ≡ leap_date date }
{
    match day_number(date) {
        Ok(n) => is_leap_day(n),
        Err(_) => false,
    }
}
