// What the programs that run cases share: reading a case and taking it apart, printing, holding an answer against the one that the case
// asks for, and counting those that agree.
#![tactic(auto)]

pub mod answer;
pub mod counts;
pub mod input;
pub mod print;
