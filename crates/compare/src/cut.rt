// Whether one product is a cut of another (02, request Ten).
ghost use Rattle.compare.specs.Check.{CheckIs};
ghost use Rattle.compare.specs.Walking.{Products};

use crate::same::four_agree;
use crate::walk::compare_records;
use calendar::Refusal;
use finish::verdict;

// Products that were accepted.
fn check_products(original: &[u8], cut: &[u8]) -> Result<Option<usize>, Refusal>
    requires { Products original.now cut.now }
    ensures { CheckIs original.now cut.now result }
{
    if !four_agree(&original[..3307], &cut[..3307]) {
        return Ok(Some(0));
    }
    Ok(compare_records(original, cut))
}

// Whether `cut` is a cut of the original: `None` where it is, else the place of the no.
pub fn check_cut(original: &[u8], cut: &[u8]) -> Result<Option<usize>, Refusal>
    ensures { CheckIs original.now cut.now result }
{
    verdict(original)?;
    verdict(cut)?;
    check_products(original, cut)
}
