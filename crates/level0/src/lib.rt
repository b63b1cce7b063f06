// The Level 0 profile (02, request Nine): the finished judge, and then 002's tables of Level 0 records.
#![tactic(auto)]

ghost use Rattle.level0.specs.Profile.{Level0Is};

use calendar::Refusal;
use finish::rows_by;

// A line: class, group, least and greatest subclass, least and greatest version. A VIADR is 002's Tables 45 and 48; an MDR Tables 46, 47
// and 48; a dummy (group 13) stands in any product (002, 5.5.2).
const LEVEL0: [[u8; 6]; 3] = [
    [7, 0, 0, 0, 1, 2],
    [8, 0, 0, 4, 1, 1],
    [8, 13, 0, 255, 0, 255],
];

// What is to be said of a finished product of Level 0, whose records' rows go into the list where it is accepted: 29 at the first record
// against the profile, after the finished judge's refusals and before 18.
pub fn judge_level0(bytes: &[u8], rows: &mut [[u32; 7]]) -> Result<usize, Refusal>
    ensures { Level0Is bytes.now rows.old result rows.new }
{
    let profile = LEVEL0;
    rows_by(bytes, &profile, rows)
}
