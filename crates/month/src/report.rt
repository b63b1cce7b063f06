// The report of a list of products, lent one after the other; and two reports as one. A report is 38 numbers: [0] products; [c] records
// and [8 + c] bytes of class c; [17] milliseconds of gap, [18] of overlap; [19] pairs with an undefined time; [20] products accepted;
// [20 + n] products refused with n. A new one is all zeros.
ghost use Rattle.std.specs.Prelude.{◌≡◌, ◌+◌, ◌≤◌};
ghost use Rattle.std.specs.declared.option.Option.TheVariants.{Some};
ghost use Rattle.demands.specs.Product.{Meets};
ghost use Rattle.month.specs.Report.{plus, Within, tallied, JoinIs, AddIs, MergeIs};
ghost use Rattle.month.specs.Counting.{FitsIs};

use crate::count::count_records;
use calendar::{Refusal, fault};
use finish::verdict;

// How much x can grow in 64 bits.
fn room(x: u64) -> u64
    ensures { result + x ≡ 18446744073709551615 }
{
    u64::MAX - x
}

// At most 4,096 products, and each total in 64 bits.
fn fits(report: &[u64; 38], other: &[u64; 38]) -> bool
    ensures { FitsIs report.now other.now result }
{
    if other[0] > 4096 {
        return false;
    }
    if report[0] > 4096 - other[0] {
        return false;
    }
    report
        .iter()
        .zip(other.iter())
        .all(|(total, more)| *total <= room(*more))
}

// The arrays come by value: so it is known that there are 38 numbers.
fn sum(report: [u64; 38], other: [u64; 38]) -> [u64; 38]
    requires { Within (plus report other) }
    ensures { result ≡ plus report other }
{
    let mut sums = report;
    for (i, more) in other.iter().enumerate() {
        sums[i] += *more;
    }
    sums
}

// The report gets what the other has. The refusal is 36: the report is as it was.
pub fn merge(report: &mut [u64; 38], other: &[u64; 38]) -> Result<(), Refusal>
    ensures { MergeIs report.old other.now result report.new }
{
    if !fits(report, other) {
        return Err(Refusal {
            number: fault::REPORT_FULL,
            place: 0,
        });
    }
    *report = sum(*report, *other);
    Ok(())
}

// A product that was refused.
fn tally(report: &mut [u64; 38], refusal: Refusal) -> Result<Option<Refusal>, Refusal>
    requires { refusal.number ≤ 17 }
    ensures { JoinIs report.old (tallied refusal.number) (Some refusal) result report.new }
{
    let mut share = [0u64; 38];
    share[0] = 1;
    share[20 + usize::from(refusal.number)] = 1;
    merge(report, &share)?;
    Ok(Some(refusal))
}

// One that was accepted.
fn add_product(report: &mut [u64; 38], product: &[u8]) -> Result<Option<Refusal>, Refusal>
    requires { Meets product.now }
    ensures { AddIs product.now report.old result report.new }
{
    merge(report, &count_records(product))?;
    Ok(None)
}

// The report gets what the product adds. Of a product that is in, its own refusal is answered, which is counted, or none; the refusal is 36,
// as above.
pub fn add(report: &mut [u64; 38], product: &[u8]) -> Result<Option<Refusal>, Refusal>
    ensures { AddIs product.now report.old result report.new }
{
    match verdict(product) {
        Ok(_) => add_product(report, product),
        Err(r) => tally(report, r),
    }
}
