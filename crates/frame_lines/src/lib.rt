// Lines of text that ask to read or to write a frame, and their answers.
#![tactic(auto)]

pub mod answering;
pub mod lines;
pub mod names;
pub mod reading;
pub mod reply;
pub mod writing;

pub use answering::{answer, replied};
pub use lines::Line;
pub use reading::read_line;
pub use reply::Reply;
pub use writing::write_reply;
