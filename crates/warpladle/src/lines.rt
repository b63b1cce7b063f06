// The header's reader and writer, and the writers of the main header's lines.
ghost use Rattle.std.specs.Prelude.{◌≡◌};
ghost use Rattle.told.specs.Given.{is_set, time_given, moment_given, general_given};
ghost use Rattle.warpladle.specs.Values.{number_given, header_given, header16};
ghost use Rattle.warpladle.specs.Lines.{HeaderTold, WriteHeaderTold, TextLineTold, NumberLineTold, TimeLineTold};

use crate::put::header_numbers;
use calendar::Date;
use meter::general::Moment;
use record::header::Header;
use told::put::{told, written};

// The header in the 20 bytes from `at` on: the numbers of a record query, with `at` for the start.
#[unsafe(no_mangle)]
pub extern "C" fn wl_read_header(bytes: &[u8], at: usize, answer: &mut [u64; 16])
    ensures { HeaderTold bytes.now at answer.new }
{
    *answer = told(
        record::header::read_header(bytes, at),
        |header| -> [u64; 16]
            ensures { result ≡ header16 at header }
        { header_numbers(at, header) },
    );
}

// A header into the first 20 bytes of the room: 0, 0, the bytes written, 0.
#[unsafe(no_mangle)]
pub extern "C" fn wl_write_header(
    room: &mut [u8],
    class: u8,
    group: u8,
    subclass: u8,
    version: u8,
    size: u32,
    start_defined: u8,
    start_day: u16,
    start_milli: u32,
    stop_defined: u8,
    stop_day: u16,
    stop_milli: u32,
    answer: &mut [u64; 4],
)
    ensures { WriteHeaderTold room.old
        (header_given class group subclass version size
        (time_given (is_set start_defined) start_day start_milli)
        (time_given (is_set stop_defined) stop_day stop_milli))
        room.new answer.new }
{
    let start = told::given::time(start_defined, start_day, start_milli);
    let stop = told::given::time(stop_defined, stop_day, stop_milli);
    let header = Header {
        class,
        group,
        subclass,
        version,
        size,
        start,
        stop,
    };
    *answer = written(record::header::write_header(room, header));
}

// The line of field k with a text at the start of the room: 0, 0, the bytes written, 0.
#[unsafe(no_mangle)]
pub extern "C" fn wl_write_text_line(room: &mut [u8], k: usize, text: &[u8], answer: &mut [u64; 4])
    ensures { TextLineTold room.old k text.now room.new answer.new }
{
    *answer = written(mphr::lines::write_text_line(room, k, text));
}

// The same of a number.
#[unsafe(no_mangle)]
pub extern "C" fn wl_write_number_line(
    room: &mut [u8],
    k: usize,
    defined: u8,
    value: i64,
    answer: &mut [u64; 4],
)
    ensures { NumberLineTold room.old k (number_given (is_set defined) value) room.new answer.new }
{
    let x = crate::given::number(defined, value);
    *answer = written(mphr::lines::write_number_line(room, k, x));
}

// The same of a time.
#[unsafe(no_mangle)]
pub extern "C" fn wl_write_time_line(
    room: &mut [u8],
    k: usize,
    defined: u8,
    year: u16,
    month: u8,
    day: u8,
    hour: u8,
    minute: u8,
    second: u8,
    milli: u16,
    answer: &mut [u64; 4],
)
    ensures { TimeLineTold room.old k
        (general_given (is_set defined) (moment_given year month day hour minute second milli))
        room.new answer.new }
{
    let date = Date { year, month, day };
    let moment = Moment {
        date,
        hour,
        minute,
        second,
        milli,
    };
    let t = told::given::general(defined, moment);
    *answer = written(mphr::lines::write_time_line(room, k, t));
}
