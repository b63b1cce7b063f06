// The size and the totals of a new product, from what was gathered of its records, before a byte of it is written.
ghost use Rattle.std.specs.Prelude.{◌≡◌, ◌≤◌, length};
ghost use Rattle.rewrite.specs.Assembling.{with_pointers, Plannable, PlanIs};

use crate::kinds::kinds_in;
use calendar::{Refusal, fault};

// Where the records after the pointers start, and how many bytes the product has.
#[derive(Clone, Copy)]
pub struct Size {
    pub base: usize,
    pub size: usize,
}

// The totals of the result, where `tally` has those of the records that are carried over.
fn add_pointers(tally: &mut [usize], records: usize, kinds: usize)
    requires { (length tally.old ≡ 9) × (records ≤ 1099511627776) × (kinds ≤ 20480) }
    ensures { tally.new ≡ with_pointers tally.old records kinds }
{
    tally[0] = 1 + records + kinds;
    tally[1] = 1;
    tally[3] = kinds;
}

// A product of a front, a pointer to each kind and the records that are kept, for a room of `room` bytes; the tally gets the totals.
pub(crate) fn plan_of(
    table: &[u32],
    tally: &mut [usize],
    front: usize,
    kept: usize,
    records: usize,
    room: usize,
) -> Result<Size, Refusal>
    requires { Plannable table.now tally.old front kept records }
    ensures { PlanIs table.now tally.old front kept records room result tally.new }
{
    let kinds = kinds_in(table);
    add_pointers(tally, records, kinds);
    let base = 3307 + front + 27 * kinds;
    let size = base + kept;
    if size > 2_147_483_647 || tally[0] > 999_999 {
        return Err(Refusal {
            number: fault::RESULT_LIMIT,
            place: 0,
        });
    }
    if room < size {
        return Err(Refusal {
            number: fault::ROOM,
            place: size,
        });
    }
    Ok(Size { base, size })
}
