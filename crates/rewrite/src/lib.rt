// New products written from old ones into a lent room: the cut of a product to a window of time, and two products joined
// into one (02, requests Three and Seven).
#![tactic(auto)]

pub use calendar::Refusal;

mod copy;
pub mod cut;
mod gather;
pub mod join;
mod kinds;
mod lines;
mod plan;
mod sections;
mod survey;
mod times;
