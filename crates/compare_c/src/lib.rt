// Whether one product is a cut of another, for C.
#![tactic(auto)]

ghost use Rattle.std.specs.Prelude.{◌≡◌};
ghost use Rattle.std.specs.declared.result.Result.TheVariants.{Ok};
ghost use Rattle.compare_c.specs.Checking.{checked_said, CheckTold};

use told::put::told;

// The place where it is no cut.
fn checked_numbers(place: Option<usize>) -> [u64; 4]
    ensures { result ≡ checked_said (Ok place) }
{
    match place {
        None => [0, 0, 1, 0],
        Some(place) => [0, 0, 0, place as u64],
    }
}

// Whether `cut` is a cut of the original: 0, 0, 1, 0 where it is, and 0, 0, 0, the place where it is not.
#[unsafe(no_mangle)]
pub extern "C" fn wl_check_cut(original: &[u8], cut: &[u8], answer: &mut [u64; 4])
    ensures { CheckTold original.now cut.now answer.new }
{
    *answer = told(compare::cut::check_cut(original, cut), checked_numbers);
}
