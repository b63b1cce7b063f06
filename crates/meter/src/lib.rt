// Numbers and times of EPS products, the part that ships alone on handheld meters: big-endian integers, short CDS times,
// generalised times and scaled numbers. Every entry answers an enum whose refusing case carries a `Refusal`.
#![tactic(auto)]

pub use calendar::Refusal;

pub mod general;
pub mod integer;
pub mod scaled;
pub mod time;
