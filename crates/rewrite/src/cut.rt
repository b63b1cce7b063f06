// The cut of a product to a window of time (02, request Three).
ghost use Rattle.parts.specs.Cut.{window};
ghost use Rattle.rewrite.specs.Cut.{CutIs};
ghost use Rattle.rewrite.specs.Planning.{CutPlanned, PutsCut, Cuttable};

use crate::copy::copy;
use crate::kinds::put_pointers;
use crate::lines::put_header;
use crate::plan::{Size, plan_of};
use crate::survey::{Sums, put_kept, survey};
use crate::times::is_up_to;
use calendar::{Refusal, fault};
use finish::verdict;
use meter::time::Time;

// The result, at the start of a room that is long enough.
fn put_cut(
    s: &[u8],
    first: Option<Time>,
    last: Option<Time>,
    found: Sums,
    table: &[u32],
    totals: &[usize],
    plan: Size,
    room: &mut [u8],
)
    requires { CutPlanned s.now (window first last) table.now totals.now plan.base plan.size found room.old }
    ensures { PutsCut s.now (window first last) room.old room.new }
{
    let mut header = [0u8; 3307];
    put_header(s, found.start, found.stop, totals, plan.size, &mut header);
    copy(&header, 0, 3307, room, 0);
    copy(s, 3307, found.front, room, 3307);
    let to = put_pointers(s, table, plan.base, room, 3307 + found.front);
    put_kept(s, first, last, room, to);
}

// The cut of a product that was accepted.
fn cut_product(
    s: &[u8],
    first: Option<Time>,
    last: Option<Time>,
    room: &mut [u8],
) -> Result<usize, Refusal>
    requires { Cuttable s.now (window first last) }
    ensures { CutIs s.now (window first last) room.old result room.new }
{
    let mut table = [0u32; 20480];
    let mut tally = [0usize; 9];
    let found = survey(s, first, last, &mut table, &mut tally);
    let plan = plan_of(
        &table,
        &mut tally,
        found.front,
        found.kept,
        found.records,
        room.len(),
    )?;
    put_cut(s, first, last, found, &table, &tally, plan, room);
    Ok(plan.size)
}

// The product with only the MDRs whose start lies in the window, at the start of the room.
pub fn cut(
    bytes: &[u8],
    first: Option<Time>,
    last: Option<Time>,
    room: &mut [u8],
) -> Result<usize, Refusal>
    ensures { CutIs bytes.now (window first last) room.old result room.new }
{
    if !is_up_to(first, last) {
        return Err(Refusal {
            number: fault::WINDOW,
            place: 0,
        });
    }
    verdict(bytes)?;
    cut_product(bytes, first, last, room)
}
