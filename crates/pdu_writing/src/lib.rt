// Writing the nineteen PDUs into bytes.
#![tactic(auto)]

mod spelling;
mod whole;

pub use spelling::spell;
pub use whole::write_pdu;
