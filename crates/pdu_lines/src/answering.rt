// The answer to a line.
ghost use Rattle.std.specs.Prelude.{◌≡◌, IfOk, string_bytes};
ghost use Rattle.pdu_lines.specs.Lines.{answer_of};

use crate::lines::LineError;
use crate::reading::read_line;
use crate::writing::write_reply;
use std::alloc::{AllocError, Global};

pub fn answer(heap: Global, line: &[u8]) -> Result<String, AllocError>
    ensures { IfOk result (λ s. string_bytes s ≡ answer_of line.now) }
{
    match read_line(heap, line) {
        Ok(line) => write_reply(heap, Ok(line)),
        Err(LineError::Fault(fault)) => write_reply(heap, Err(fault)),
        Err(LineError::OutOfMemory(error)) => Err(error),
    }
}
