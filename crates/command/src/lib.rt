// A console's lines: a command is read from one, and a reply is written as one.
#![tactic(auto)]

pub mod commands;
pub mod lines;
pub mod reading;
pub mod replies;

pub use commands::{Command, Unreadable};
pub use lines::write_reply;
pub use replies::Reply;
