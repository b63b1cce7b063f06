// Judges arrivals and finished products by 01's table of faults.
#![tactic(auto)]

pub use calendar::Refusal;

pub mod arrival;
mod header;
pub mod parts;
mod pending;
mod pointers;
pub mod profile;
mod reach;
mod run;
pub mod stretch;
mod times;
