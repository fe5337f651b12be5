// Reading the nineteen PDUs from bytes, and their parts from a place in the bits.
#![tactic(auto)]

mod bit_source;
mod whole;

pub use bit_source::BitSource;
pub use whole::read_pdu;
