// Reading and writing the lines of text that the consoles work on. A line is any bytes.
#![tactic(auto)]

pub mod decimal;
pub mod hexadecimal;
pub mod words;

pub use decimal::{Spaced, number};
pub use hexadecimal::{hex_array, hex_bytes, push_hex};
pub use words::{Words, next_word};
