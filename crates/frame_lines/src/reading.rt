// Reading a line.
ghost use Rattle.std.specs.Prelude.{◌≡◌, ◌∷◌};
ghost use Rattle.text.specs.Words.{words};
ghost use Rattle.frame_lines.specs.Lines.{decode_of, encode_of, line_of};

use crate::lines::Line;
use crate::names::kind_named;
use fields::Refusal;
use link::PlainMessage;
use text::{Words, hex_array};

// What follows a `d`: one word, a frame.
fn read_decode(mut words: Words<'_>) -> Result<Line, Refusal>
    ensures { result ≡ decode_of words.entry }
{
    match (words.next().and_then(hex_array), words.next()) {
        (Some(frame), None) => Ok(Line::Decode(frame)),
        _ => Err(Refusal::OutsideField),
    }
}

// A kind's number before the other fields.
fn fields(kind: u64, others: [u64; 8]) -> [u64; 9]
    ensures { result ≡ kind ∷ others }
{
    let mut fields = [kind; 9];
    fields[1..].copy_from_slice(&others);
    fields
}

// What follows an `e`: the name of a kind and eight numbers.
fn read_encode(mut words: Words<'_>) -> Result<Line, Refusal>
    ensures { result ≡ encode_of words.entry }
{
    let kind = words
        .next()
        .and_then(kind_named)
        .ok_or(Refusal::OutsideField)?;
    let others = words.numbers().ok_or(Refusal::OutsideField)?;
    Ok(Line::Encode(PlainMessage::from(fields(kind, others))))
}

// What the line asks for.
pub fn read_line(line: &[u8]) -> Result<Line, Refusal>
    ensures { result ≡ line_of (words line.now) }
{
    let mut words = Words::of(line);
    match words.next() {
        Some(word) if word == b"d".as_slice() => read_decode(words),
        Some(word) if word == b"e".as_slice() => read_encode(words),
        _ => Err(Refusal::OutsideField),
    }
}
