// The month report (02, request Twelve).
#![tactic(auto)]

pub use calendar::Refusal;

mod bits;
mod count;
pub mod report;
