// Two products joined into one: those of request Seven (02), with identical SPHR and global records, and granules of a pass, whose SPHR
// and global records have the times of their own product.
ghost use Rattle.std.specs.Prelude.{◌≡◌, cond, eqb, length};
ghost use Rattle.parts.specs.Parts.{main_of};
ghost use Rattle.parts.specs.Join.{identical, granules};
ghost use Rattle.bytewise.specs.Comparing.{Decides};
ghost use Rattle.rewrite.specs.Join.{JoinIs};
ghost use Rattle.rewrite.specs.Joining.{Two, Sections2, Matched, MatchedIs, Gathering2, Gathers2, LikeIs, AlikeIs};
ghost use Rattle.rewrite.specs.Joining.{RecordsFor, PutsRecords, JoinPlanned, PutsJoin};

use crate::copy::{copy, is_untimed};
use crate::gather::gather;
use crate::kinds::put_pointers;
use crate::lines::{four_agree, put_join_header, sums_fit};
use crate::plan::{Size, plan_of};
use crate::sections::{Sections, sections_of};
use crate::times::is_late;
use bytewise::is_same;
use calendar::{Refusal, fault};
use finish::verdict;

// "with identical SPHR and global records", or the same but for the times of their headers. `same` stays a flag: it is the clauses' own
// (`identical`, `granules`), and a closure for each of its two uses would be no plainer, handed down through four functions.
fn is_like(same: bool, first: &[u8], f: Sections, second: &[u8], g: Sections) -> bool
    requires { Sections2 first.now second.now f g }
    ensures { LikeIs same first.now second.now result }
{
    if f.sphr != g.sphr || f.global != g.global {
        return false;
    }
    let from = 3307 + f.sphr + f.ipr;
    let at = 3307 + g.sphr + g.ipr;
    if same {
        is_same(first, 3307, second, 3307, f.sphr) && is_same(first, from, second, at, f.global)
    } else {
        is_untimed(first, 3307, second, 3307, f.sphr)
            && is_untimed(first, from, second, at, f.global)
    }
}

fn is_alike(same: bool, first: &[u8], f: Sections, second: &[u8], g: Sections) -> bool
    requires { Sections2 first.now second.now f g }
    ensures { AlikeIs same first.now second.now result }
{
    four_agree(&first[..3307], &second[..3307]) && is_like(same, first, f, second, g)
}

// 0 or 1 records in a section of n bytes.
fn one_in(n: usize) -> usize
    ensures { result ≡ cond (eqb n 0) 0 1 }
{
    if n == 0 { 0 } else { 1 }
}

// The records that are carried over, in the order of the result; how many they are comes back.
fn gather_both(
    first: &[u8],
    f: Sections,
    second: &[u8],
    g: Sections,
    table: &mut [u32],
    tally: &mut [usize],
) -> usize
    requires { Gathering2 first.now second.now f g table.old tally.old }
    ensures { Gathers2 first.now second.now f result table.new tally.new }
{
    let global = 3307 + f.sphr + f.ipr;
    let mdr = global + f.global + f.variable;
    let variable = 3307 + g.sphr + g.ipr + g.global;
    let other = variable + g.variable;
    let aux = gather(first, global, mdr, 0, table, tally);
    let more = gather(second, variable, other, mdr - global, table, tally);
    let before = (mdr - global) + (other - variable);
    let mdrs = gather(first, mdr, first.len(), before, table, tally);
    let others = gather(
        second,
        other,
        second.len(),
        before + (first.len() - mdr),
        table,
        tally,
    );
    let front = one_in(f.sphr);
    tally[2] = front;
    front + aux + more + mdrs + others
}

// The records that are carried over, into the room from `at` on.
fn put_records(first: &[u8], f: Sections, second: &[u8], g: Sections, room: &mut [u8], at: usize)
    requires { RecordsFor first.now second.now f g at room.old }
    ensures { PutsRecords first.now second.now at room.old room.new }
{
    let global = 3307 + f.sphr + f.ipr;
    let mdr = global + f.global + f.variable;
    let variable = 3307 + g.sphr + g.ipr + g.global;
    let other = variable + g.variable;
    copy(first, global, mdr - global, room, at);
    copy(
        second,
        variable,
        other - variable,
        room,
        at + (mdr - global),
    );
    let to = at + (mdr - global) + (other - variable);
    copy(first, mdr, first.len() - mdr, room, to);
    copy(
        second,
        other,
        second.len() - other,
        room,
        to + (first.len() - mdr),
    );
}

// The result, at the start of a room that is long enough.
fn put_join(
    first: &[u8],
    f: Sections,
    second: &[u8],
    g: Sections,
    table: &[u32],
    totals: &[usize],
    plan: Size,
    room: &mut [u8],
)
    requires { JoinPlanned first.now second.now f g table.now totals.now plan.base plan.size room.old }
    ensures { PutsJoin first.now second.now room.old room.new }
{
    let mut header = [0u8; 3307];
    put_join_header(
        &first[..3307],
        &second[..3307],
        totals,
        plan.size,
        &mut header,
    );
    copy(&header, 0, 3307, room, 0);
    copy(first, 3307, f.sphr, room, 3307);
    put_pointers(first, table, plan.base, room, 3307 + f.sphr);
    put_records(first, f, second, g, room, plan.base);
}

// Products whose sums fit: the answer, where they are alike and in time.
fn join_matched(
    first: &[u8],
    f: Sections,
    second: &[u8],
    g: Sections,
    room: &mut [u8],
) -> Result<usize, Refusal>
    requires { Matched first.now second.now f g }
    ensures { MatchedIs first.now second.now room.old result room.new }
{
    let kept = (first.len() - 3307 - f.sphr - f.ipr)
        + (second.len() - 3307 - g.sphr - g.ipr - g.global);
    if kept > 2_147_483_647 {
        return Err(Refusal {
            number: fault::RESULT_LIMIT,
            place: 0,
        });
    }
    let mut table = [0u32; 20480];
    let mut tally = [0usize; 9];
    let records = gather_both(first, f, second, g, &mut table, &mut tally);
    let plan = plan_of(&table, &mut tally, f.sphr, kept, records, room.len())?;
    put_join(first, f, second, g, &table, &tally, plan, room);
    Ok(plan.size)
}

// Products that were accepted.
fn join_products(same: bool, first: &[u8], second: &[u8], room: &mut [u8]) -> Result<usize, Refusal>
    requires { Two first.now second.now }
    ensures { JoinIs same first.now second.now room.old result room.new }
{
    let f = sections_of(first);
    let g = sections_of(second);
    if !is_alike(same, first, f, second, g) {
        return Err(Refusal {
            number: fault::UNLIKE,
            place: 0,
        });
    }
    if is_late(same, f.stop, g.start) {
        return Err(Refusal {
            number: fault::OUT_OF_TIME,
            place: 0,
        });
    }
    if !sums_fit(&first[..3307], &second[..3307]) {
        return Err(Refusal {
            number: fault::RESULT_LIMIT,
            place: 0,
        });
    }
    join_matched(first, f, second, g, room)
}

// Products that may not be accepted, by the one way or the other.
fn join_by(same: bool, first: &[u8], second: &[u8], room: &mut [u8]) -> Result<usize, Refusal>
    ensures { JoinIs same first.now second.now room.old result room.new }
{
    verdict(first)?;
    verdict(second)?;
    join_products(same, first, second, room)
}

// One product of two that follow each other, at the start of the room.
pub fn join(first: &[u8], second: &[u8], room: &mut [u8]) -> Result<usize, Refusal>
    ensures { JoinIs identical first.now second.now room.old result room.new }
{
    join_by(true, first, second, room)
}

// One product of two granules of a pass that follow each other, at the start of the room.
pub fn join_pass(first: &[u8], second: &[u8], room: &mut [u8]) -> Result<usize, Refusal>
    ensures { JoinIs granules first.now second.now room.old result room.new }
{
    join_by(false, first, second, room)
}
