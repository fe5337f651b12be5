// Lines of text that hold a PDU, in bits or as text, and their answers.
#![tactic(auto)]

pub mod answering;
pub mod errors;
pub mod lines;
pub mod reading;
pub mod writing;

pub use answering::answer;
pub use lines::{Line, LineError, LineFault};
pub use reading::read_line;
pub use writing::write_reply;
