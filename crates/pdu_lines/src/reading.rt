// Reading a line.
ghost use Rattle.std.specs.Prelude.{◌≡◌, IfOk, vec_items};
ghost use Rattle.std.specs.Option.{option_map};
ghost use Rattle.text.specs.Words.{words};
ghost use Rattle.pdu.specs.Bytes.{decode};
ghost use Rattle.pdu_text.specs.Whole.{pdu_heard};
ghost use Rattle.pdu_lines.specs.Lines.{from_bits, from_text, bytes_word, bits_line, line_of, Reads};

use crate::errors::UNREADABLE;
use crate::lines::{Line, LineError, LineFault};
use pdu_reading::read_pdu;
use pdu_text_reading::read_text;
use std::alloc::{AllocError, Global};
use text::{Words, hex_bytes, number};

// The bytes of a word of hex digits; a dash is no bytes. What a bad word means is its caller's to
// say.
fn bytes_word(heap: Global, word: &[u8]) -> Result<Option<Vec<u8>>, AllocError>
    ensures { IfOk result (λ o. option_map vec_items o ≡ bytes_word word.now) }
{
    if word == b"-".as_slice() {
        Ok(Some(Vec::new(heap)))
    } else {
        hex_bytes(heap, word)
    }
}

fn from_bits(bytes: &[u8], count: usize) -> Result<Line, LineFault>
    ensures { result ≡ from_bits (decode bytes.now count) }
{
    read_pdu(bytes, count)
        .map(Line::Bits)
        .map_err(LineFault::Bits)
}

fn from_text(text: &[u8]) -> Result<Line, LineFault>
    ensures { result ≡ from_text (pdu_heard (words text.now)) }
{
    read_text(text).map(Line::Text).map_err(LineFault::Text)
}

// What follows a `d`: bytes and a count of bits.
fn read_bits_line(heap: Global, mut words: Words<'_>) -> Result<Line, LineError>
    ensures { Reads result (bits_line words.entry) }
{
    let (Some(word), Some(count), None) = (words.next(), words.next(), words.next()) else {
        return Err(LineError::Fault(UNREADABLE));
    };
    let bytes = bytes_word(heap, word)?.ok_or(UNREADABLE)?;
    let count = number(count).ok_or(UNREADABLE)?;
    Ok(from_bits(&bytes, count as usize)?)
}

// The PDU that the line holds.
pub fn read_line(heap: Global, line: &[u8]) -> Result<Line, LineError>
    ensures { Reads result (line_of (words line.now)) }
{
    let mut words = Words::of(line);
    match words.next() {
        Some(word) if word == b"d".as_slice() => read_bits_line(heap, words),
        Some(word) if word == b"e".as_slice() => Ok(from_text(words.as_bytes())?),
        _ => Err(LineError::Fault(UNREADABLE)),
    }
}
