// Where the elements of a PDU are read from, and what a PDU tells.
#![tactic(auto)]

pub mod source;
pub mod telling;
pub mod told;

pub use source::{Source, read_element};
pub use telling::{Listener, tell, tell_present};
pub use told::{Code, Told, ToldList};
