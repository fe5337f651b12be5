// A caller's eight identifiers: which of them are held, and which is issued next.
#![tactic(auto)]

pub mod issuing;
pub mod mask;

pub use mask::Marks;
