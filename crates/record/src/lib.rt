// Record headers, pointer records, and which class of record may follow which.
#![tactic(auto)]

pub use calendar::Refusal;

pub mod follow;
pub mod header;
pub mod pointer;
pub mod times;
