// Upper Tropospheric Humidity files in OpenMTP form: 542 bytes of text, a header of 100, and for each of its M segments 36 bytes and N
// blocks of 72. Read into lent rooms, a place of each to a block, or a block alone.
#![tactic(auto)]

pub use calendar::Refusal;

pub mod blocks;
pub mod judge;
pub mod value;
