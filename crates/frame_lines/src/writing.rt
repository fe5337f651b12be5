// Writing the answer to a line.
ghost use Rattle.std.specs.Prelude.{◌≡◌, ◌++◌, IfOk, string_bytes, codes};
ghost use Rattle.text.specs.Hex.{hex_of};
ghost use Rattle.frame_lines.specs.Lines.{message_text, reply_text};

use crate::names::kind_name;
use crate::reply::Reply;
use fields::Refusal;
use link::{Message, PlainMessage};
use std::alloc::{AllocError, Global};
use text::{Spaced, push_hex};

// The kind by name and the other fields by number.
fn write_message(heap: Global, message: Message) -> Result<String, AllocError>
    ensures { IfOk result (λ s. string_bytes s ≡ codes "0 " ++ message_text message) }
{
    let kind = kind_name(message.kind);
    let fields = <[u64; 9]>::from(PlainMessage::from(message));
    format!(in heap; "0 {kind}{}", Spaced(&fields[1..]))
}

// It appends by `push_hex`, which no `Display` does.
fn write_frame(heap: Global, frame: [u8; 15]) -> Result<String, AllocError>
    ensures { IfOk result (λ s. string_bytes s ≡ codes "0 " ++ hex_of frame) }
{
    let mut text = String::from_str(heap, "0 ")?;
    push_hex(&mut text, &frame)?;
    Ok(text)
}

// 0 and the reply, or the refusal's number. A `Result` is of the language, so no `Display` can be
// added; a refusal has a text too, so it is handed in.
pub fn write_reply(heap: Global, reply: Result<Reply, Refusal>) -> Result<String, AllocError>
    ensures { IfOk result (λ s. string_bytes s ≡ reply_text reply) }
{
    match reply {
        Ok(Reply::Decoded(message)) => write_message(heap, message),
        Ok(Reply::Encoded(frame)) => write_frame(heap, frame),
        Err(refusal) => u8::from(refusal).to_string(heap),
    }
}
