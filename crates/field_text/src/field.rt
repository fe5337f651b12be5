// Reads and writes a field of a text.
ghost use Rattle.std.specs.Prelude.{◌≡◌, ◌<◌, ◌≤◌, [], ◌∷◌, length, string_bytes, OnOk};
ghost use Rattle.field_text.specs.Fields.{name_len, name_in, digits_in, is_field, value_in, Tells};

use crate::names::field_name;
use bits::ElementName;
use std::alloc::AllocError;
use std::fmt::Write;
use text::number;

// How many bytes stand before the first equals sign.
fn name_len(word: &[u8]) -> usize
    ensures value { result ≡ name_len word.now }
    ensures within { result ≤ length word.now }
{
    word.iter()
        .position(|byte| *byte == b'=')
        .unwrap_or(word.len())
}

fn name_in(word: &[u8]) -> &[u8]
    ensures { result.now ≡ name_in word.now }
{
    &word[..name_len(word)]
}

fn digits_in(word: &[u8]) -> &[u8]
    ensures { result.now ≡ digits_in word.now }
{
    word.get(name_len(word) + 1..).unwrap_or_default()
}

// Whether the word has this name.
pub fn is_field(word: &[u8], element: ElementName) -> bool
    ensures { result ≡ is_field element word.now }
{
    name_in(word) == field_name(element).as_bytes()
}

// The value of a word that is this field.
pub fn field_value(word: &[u8], element: ElementName, width: usize) -> Option<u64>
    requires { width < 64 }
    ensures { result ≡ value_in element width word.now }
{
    if !is_field(word, element) {
        return None;
    }
    number(digits_in(word)).filter(|value| *value < 1 << width)
}

// Appends the field, after a space.
pub fn write_field(text: &mut String, element: ElementName, code: u64) -> Result<(), AllocError>
    ensures { OnOk result (Tells (string_bytes text.old) ((element, code) ∷ []) (string_bytes text.new)) }
{
    let name = field_name(element);
    write!(text, " {name}={code}")
}
