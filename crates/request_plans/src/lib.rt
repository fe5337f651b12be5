// What a message does to a request: decided before anything is changed.
#![tactic(auto)]

pub mod plans;

pub use plans::{CallerState, Change, Plan, plan_at};
