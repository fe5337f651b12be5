// Writing PDUs as text.
#![tactic(auto)]

mod told_fields;
mod whole;

pub use told_fields::write_fields;
pub use whole::write_text;
