// A field of a text: its name, an equals sign and its value.
#![tactic(auto)]

pub mod fault;
pub mod field;
pub mod names;

pub use fault::TextFault;
pub use field::{field_value, is_field, write_field};
pub use names::field_name;
