// What the nineteen PDUs tell, element by element.
#![tactic(auto)]

mod bodies;
pub mod lists;
pub mod parts;
pub mod pdus;

pub use bodies::{body_told, tell_pdu, told_of};
