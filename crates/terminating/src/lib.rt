// The terminating office: its lines, and the monitors that wait for them.
#![tactic(auto)]

pub mod hearing;
pub mod lines;
pub mod making;
pub mod office;
pub mod outcomes;
pub mod plans;
pub mod seeks;
pub mod serving;

pub use making::{LineSetting, TerminatingSettings};
pub use office::{Line, Monitor, Stage, Terminating};
