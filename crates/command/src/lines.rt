// A reply as a line.
ghost use Rattle.std.specs.Prelude.{◌≡◌, ◌++◌, string_bytes, OnOk};
ghost use Rattle.command.specs.Replies.{reply_line};

use crate::replies::Reply;
use std::alloc::AllocError;

// Appends the reply as a line. Where memory runs out, a part of it may have been appended.
pub fn write_reply(out: &mut String, reply: Reply) -> Result<(), AllocError>
    ensures { OnOk result (string_bytes out.new ≡ string_bytes out.old ++ reply_line reply) }
{
    writeln!(out, "{reply}")
}
