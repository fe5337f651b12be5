// What is wrong with a line, as an error of reading it.
ghost use Rattle.std.specs.Prelude.{◌≡◌};
ghost use Rattle.pdu_lines.specs.declared.lines.LineError.TheVariants.{Fault, OutOfMemory};

use crate::lines::{LineError, LineFault};
use field_text::TextFault;
use std::alloc::AllocError;

pub(crate) const UNREADABLE: LineFault = LineFault::Text(TextFault::Unreadable);

impl From<LineFault> for LineError {
    ghost from_gives = { λ fault error. error ≡ Fault fault };

    fn from(fault: LineFault) -> LineError {
        LineError::Fault(fault)
    }
}

impl From<AllocError> for LineError {
    ghost from_gives = { λ memory error. error ≡ OutOfMemory memory };

    fn from(memory: AllocError) -> LineError {
        LineError::OutOfMemory(memory)
    }
}
