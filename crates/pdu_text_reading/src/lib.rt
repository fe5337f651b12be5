// Reading PDUs from text, and their parts.
#![tactic(auto)]

mod text_source;
mod whole;

pub use text_source::TextSource;
pub use whole::read_text;
