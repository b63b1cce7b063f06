// The judges, the record query and the listing.
ghost use Rattle.std.specs.Prelude.{◌≡◌};
ghost use Rattle.std.specs.declared.result.Result.TheVariants.{Ok};
ghost use Rattle.warpladle.specs.Judging.{arrival_said, ArrivalTold, FinishedTold, record_said, RecordTold};
ghost use Rattle.warpladle.specs.Judging.{extent_said, ExtentTold, VerdictTold, Level0Told, ListingTold};

use crate::put::header_numbers;
use finish::{rows as list_rows, verdict};
use judge::arrival::{Arrival, judge_arrival, judge_extent};
use level0::judge_level0;
use listing::list_product;
use query::{Record, record_at};
use told::put::{Answer, count, told};

fn arrival_numbers(judged: Arrival) -> [u64; 4]
    ensures { result ≡ arrival_said judged }
{
    match judged {
        Arrival::Waiting { count, end } => [0, end as u64, count as u64, 0],
        Arrival::Refused(r) => <[u64; 4] as Answer>::refusal(r),
    }
}

// What is to be said of an arrival: 0, the end of the last whole record, the count, 0.
#[unsafe(no_mangle)]
pub extern "C" fn wl_arrival(bytes: &[u8], answer: &mut [u64; 4])
    ensures { ArrivalTold bytes.now answer.new }
{
    *answer = arrival_numbers(judge_arrival(bytes));
}

fn extent_numbers(count: Option<usize>) -> [u64; 4]
    ensures { result ≡ extent_said (Ok count) }
{
    match count {
        None => [0, 0, 0, 0],
        Some(count) => [0, 0, 1, count as u64],
    }
}

// Whether all of a product has come: 0, 0, 1, the count where it has; 0, 0, 0, 0 where a part has.
#[unsafe(no_mangle)]
pub extern "C" fn wl_extent(bytes: &[u8], answer: &mut [u64; 4])
    ensures { ExtentTold bytes.now answer.new }
{
    *answer = told(judge_extent(bytes), extent_numbers);
}

// The verdict of a finished product: 0, 0, the count, 0.
#[unsafe(no_mangle)]
pub extern "C" fn wl_verdict(bytes: &[u8], answer: &mut [u64; 4])
    ensures { VerdictTold bytes.now answer.new }
{
    *answer = told(verdict(bytes), count);
}

// The same, and a row for each record goes into the list.
#[unsafe(no_mangle)]
pub extern "C" fn wl_rows(bytes: &[u8], rows: &mut [[u32; 7]], answer: &mut [u64; 4])
    ensures { FinishedTold bytes.now rows.old rows.new answer.new }
{
    *answer = told(list_rows(bytes, rows), count);
}

// The same by the Level 0 profile.
#[unsafe(no_mangle)]
pub extern "C" fn wl_level0(bytes: &[u8], rows: &mut [[u32; 7]], answer: &mut [u64; 4])
    ensures { Level0Told bytes.now rows.old rows.new answer.new }
{
    *answer = told(judge_level0(bytes, rows), count);
}

fn record_numbers(found: Record) -> [u64; 16]
    ensures { result ≡ record_said (Ok found) }
{
    header_numbers(found.start, found.header)
}

// Record k: 0, 0, its start, class, group, subclass, version, size, then each of its two times as a flag, day and millisecond, 0, 0.
#[unsafe(no_mangle)]
pub extern "C" fn wl_record(bytes: &[u8], k: usize, answer: &mut [u64; 16])
    ensures { RecordTold bytes.now k answer.new }
{
    *answer = told(record_at(bytes, k), record_numbers);
}

// The listing of a product at the start of the room: 0, 0, the bytes written, 0.
#[unsafe(no_mangle)]
pub extern "C" fn wl_listing(bytes: &[u8], text: &mut [u8], answer: &mut [u64; 4])
    ensures { ListingTold bytes.now text.old text.new answer.new }
{
    *answer = told(list_product(bytes, text), count);
}
