// Answers and values as numbers, for the functions that hosts call: what they are told, and what they hand in.
#![tactic(auto)]

pub mod given;
pub mod put;
