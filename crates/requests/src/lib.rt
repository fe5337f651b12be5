// The records of the originating office, the tests on them, and what its calls answer.
#![tactic(auto)]

pub mod least;
pub mod notices;
pub mod records;
pub mod seeks;

pub use notices::{Answer, EndCause, Notice, Touched};
pub use records::{Deadlines, Phase, Request, RetainedCall, Subscriber};
