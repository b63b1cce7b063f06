// A cut compared with its original (02, request Ten).
#![tactic(auto)]

pub use calendar::Refusal;

pub mod cut;
mod same;
mod walk;
