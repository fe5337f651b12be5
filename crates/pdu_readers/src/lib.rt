// Reading the nineteen PDUs from any source of elements.
#![tactic(auto)]

mod bodies;
pub mod lists;
pub mod parts;
pub mod pdus;
pub mod request_acks;

pub use bodies::{read_body, read_head};
