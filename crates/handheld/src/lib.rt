// Numbers, times and dates for hosts that are not Rattle, and nothing of a product: what ships on a handheld meter
// (include/warpladle.h says them for C).
#![tactic(auto)]

pub mod dates;
pub mod scaled;
pub mod times;
