// The bits of a PDU in bytes, the highest first, and what can be wrong with them.
#![tactic(auto)]

pub mod buffer;
pub mod fault;
pub mod reading;

pub use buffer::BitBuffer;
pub use fault::{ElementName, Fault, Layer, Reason};
pub use reading::{Bits, bytes_for};
