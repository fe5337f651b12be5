// Bytes in hex, two digits to a byte.
ghost use Rattle.std.specs.Prelude.{◌≡◌, ◌<◌, ◌++◌, IfOk, Some, is_some, vec_items, string_bytes, string_len, OnOk, OnErr, ◌+◌, ◌≤◌, [], ◌∷◌};
ghost use Rattle.std.specs.String.{string_capacity};
ghost use Rattle.std.specs.Char.{digit_char};
ghost use Rattle.std.specs.Option.{option_map};
ghost use Rattle.text.specs.Hex.{hex_bytes, hex_array, hex_of};

use hex::FromHex;
use std::alloc::{AllocError, Global};

fn is_hex(word: &[u8]) -> bool
    ensures { result ≡ is_some (hex_bytes word.now) }
{
    word.len() % 2 == 0 && word.iter().all(|byte| byte.is_ascii_hexdigit())
}

// The bytes that a word of hex digits writes. Memory is asked for only where the word has such digits.
pub fn hex_bytes(heap: Global, word: &[u8]) -> Result<Option<Vec<u8>>, AllocError>
    ensures { IfOk result (λ o. option_map vec_items o ≡ hex_bytes word.now) }
{
    if !is_hex(word) {
        return Ok(None);
    }
    let mut bytes = vec![in heap; 0; word.len() / 2]?;
    match hex::decode_to_slice(word, bytes.as_mut_slice()) {
        Ok(()) => Ok(Some(bytes)),
        Err(_) => Ok(None),
    }
}

// The N bytes that a word of hex digits writes.
pub fn hex_array<const N: usize>(word: &[u8]) -> Option<[u8; N]>
    ensures { result ≡ hex_array N word.now }
{
    FromHex::from_hex(word).ok()
}

// Appends a digit, for which there is room.
fn push_digit(text: &mut String, digit: u8)
    requires small { digit < 16 }
    requires room { string_len text.old < string_capacity text.old }
    ensures bytes { string_bytes text.new ≡ string_bytes text.old ++ digit_char digit ∷ [] }
    ensures len { string_len text.new ≡ string_len text.old + 1 }
    ensures capacity { string_capacity text.old ≤ string_capacity text.new }
{
    let digit = char::from_digit(u32::from(digit), 16).unwrap();
    text.push(digit).unwrap();
}

// Appends two digits for each byte. Where memory runs out, the text is as it was.
// The room comes first: `write!` says nothing of the text where memory runs out.
#[tactic(auto, using(crate::proofs::Nibbles::reads_back))]
pub fn push_hex(text: &mut String, bytes: &[u8]) -> Result<(), AllocError>
    ensures written { OnOk result (string_bytes text.new ≡ string_bytes text.old ++ hex_of bytes.now) }
    ensures unwritten { OnErr result (string_bytes text.new ≡ string_bytes text.old) }
    ensures reads_back { hex_bytes (hex_of bytes.now) ≡ Some bytes.now }
{
    text.reserve(2 * bytes.len())?;
    for byte in bytes {
        push_digit(text, *byte / 16);
        push_digit(text, *byte % 16);
    }
    Ok(())
}
