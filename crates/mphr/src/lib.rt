// The main product header: the layout of its 72 lines, their names, the first of the faults that an arrival shows of it, and its lines
// written.
#![tactic(auto)]

pub mod faults;
pub mod layout;
pub mod lines;
pub mod names;
mod rows;
