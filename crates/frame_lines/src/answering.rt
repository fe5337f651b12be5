// The answer to a line.
ghost use Rattle.std.specs.Prelude.{◌≡◌, IfOk, string_bytes};
ghost use Rattle.link.specs.Messages.{message_of};
ghost use Rattle.text.specs.Words.{words};
ghost use Rattle.frame_lines.specs.Lines.{encoded_by, reply_to, reply_of, answer_of};

use crate::lines::Line;
use crate::reading::read_line;
use crate::reply::Reply;
use crate::writing::write_reply;
use fields::Refusal;
use frame::{frame, message};
use link::{Message, PlainMessage};
use std::alloc::{AllocError, Global};

fn encode(plain: PlainMessage) -> Result<Reply, Refusal>
    ensures { result ≡ encoded_by (message_of plain) }
{
    let message = Message::try_from(plain)?;
    Ok(Reply::Encoded(frame(message)))
}

// Does what the line asks for.
fn reply_to(line: Line) -> Result<Reply, Refusal>
    ensures { result ≡ reply_to line }
{
    match line {
        Line::Decode(frame) => Ok(Reply::Decoded(message(frame)?)),
        Line::Encode(plain) => encode(plain),
    }
}

// Reads the line and does what it asks for.
pub fn replied(line: &[u8]) -> Result<Reply, Refusal>
    ensures { result ≡ reply_of (words line.now) }
{
    reply_to(read_line(line)?)
}

pub fn answer(heap: Global, line: &[u8]) -> Result<String, AllocError>
    ensures { IfOk result (λ s. string_bytes s ≡ answer_of line.now) }
{
    write_reply(heap, replied(line))
}
