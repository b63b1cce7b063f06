// A product for hosts that are not Rattle: each function of the crates below as numbers (include/warpladle.h says them for C).
// Numbers, times and dates are in `handheld`.
#![tactic(auto)]

pub mod fields;
pub mod given;
pub mod judging;
pub mod lines;
pub mod put;
