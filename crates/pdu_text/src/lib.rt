// The text of a PDU: its name, and its fields with their values.
#![tactic(auto)]

pub mod names;

pub use names::{pdu_name, pdu_named};
