// An arrival recorded part by part, and replayed: the record is the lengths of the parts and what the watch answered after each (02,
// request Thirteen).
#![tactic(auto)]

pub use calendar::Refusal;

pub mod numbers;
pub mod run;
pub mod write;
