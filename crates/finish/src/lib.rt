// Finished products: the verdict, which is the arrival judge's refusals and then 17; and the lister, which judges for itself and then
// gives 18, or fills a row for each record into the lent list, by a profile where one is asked for.
#![tactic(auto)]

mod fill;
mod profile;
mod row;

ghost use Rattle.std.specs.Prelude.{◌≡◌};
ghost use Rattle.judge.specs.Extent.{Complete, Covered};
ghost use Rattle.judge.specs.Stretch.{StretchIs};
ghost use Rattle.finish.specs.Finish.{judged_as, VerdictIs, FinishedIs, RowsBy, refused_with};

use crate::fill::fill;
use crate::profile::first_against;
pub use calendar::Refusal;
use calendar::fault;
use judge::arrival::{judge_extent, survey};
use judge::profile::NO_PROFILE;
use judge::stretch::Stretch as Even;

// What the arrival judge's answer comes to, of a finished product of `len` bytes.
fn judged(extent: Result<Option<usize>, Refusal>, len: usize) -> Result<usize, Refusal>
    ensures { result ≡ judged_as extent len }
{
    extent?.ok_or(Refusal {
        number: fault::UNFINISHED,
        place: len,
    })
}

// The verdict of a finished product: its refusal, 1 to 17, or accepted with the count of its records.
pub fn verdict(s: &[u8]) -> Result<usize, Refusal>
    ensures { VerdictIs s.now result }
{
    judged(judge_extent(s), s.len())
}

// The rows of a product that is complete, where the room is enough.
fn put_rows(s: &[u8], rows: &mut [[u32; 7]], count: usize, even: Even) -> Result<usize, Refusal>
    requires { Complete s.now × Covered s.now count × StretchIs s.now even }
    ensures { FinishedIs s.now rows.old result rows.new }
{
    if rows.len() < count {
        return Err(Refusal {
            number: fault::ROOM,
            place: count,
        });
    }
    let mut counts = [0u32; 32768];
    Ok(fill(s, rows, &mut counts, even))
}

// The row lister: it judges for itself, and the rows of an accepted product's records go into the list. By a profile: 29 at the first
// record that is against it, before 18.
pub fn rows_by(s: &[u8], profile: &[[u8; 6]], rows: &mut [[u32; 7]]) -> Result<usize, Refusal>
    ensures { RowsBy profile.now s.now rows.old result rows.new }
{
    let surveyed = survey(s, profile);
    let count = judged(surveyed.extent, s.len())?;
    if let Some(place) = first_against(s, profile, surveyed.met) {
        return Err(Refusal {
            number: fault::PROFILE,
            place,
        });
    }
    put_rows(s, rows, count, surveyed.stretch)
}

// The row lister, by no profile.
pub fn rows(s: &[u8], rows: &mut [[u32; 7]]) -> Result<usize, Refusal>
    ensures { FinishedIs s.now rows.old result rows.new }
{
    let none: usize = 0;
    rows_by(s, &NO_PROFILE[..none], rows)
}
