// The report of a month, for C.
#![tactic(auto)]

ghost use Rattle.std.specs.Prelude.{◌≡◌};
ghost use Rattle.std.specs.declared.result.Result.TheVariants.{Ok};
ghost use Rattle.month_c.specs.Reporting.{added_said, merged_said, AddTold, MergeTold};

use calendar::Refusal;
use told::put::told;

// The product's own refusal.
fn added_numbers(own: Option<Refusal>) -> [u64; 4]
    ensures { result ≡ added_said (Ok own) }
{
    match own {
        None => [0; 4],
        Some(r) => [0, 0, u64::from(r.number), r.place as u64],
    }
}

fn merged_numbers(done: ()) -> [u64; 4]
    ensures { result ≡ merged_said (Ok done) }
{
    [0; 4]
}

// The report gets what the product adds: 0, 0, the product's own refusal or 0, its place.
#[unsafe(no_mangle)]
pub extern "C" fn wl_report_add(report: &mut [u64; 38], bytes: &[u8], answer: &mut [u64; 4])
    ensures { AddTold bytes.now report.old report.new answer.new }
{
    *answer = told(month::report::add(report, bytes), added_numbers);
}

// The report gets what the other has: 0, 0, 0, 0.
#[unsafe(no_mangle)]
pub extern "C" fn wl_report_merge(report: &mut [u64; 38], other: &[u64; 38], answer: &mut [u64; 4])
    ensures { MergeTold report.old other.now report.new answer.new }
{
    *answer = told(month::report::merge(report, other), merged_numbers);
}
