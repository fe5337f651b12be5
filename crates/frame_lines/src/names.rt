// The names of the kinds, each beside the number that the kind has in a frame.
ghost use Rattle.std.specs.Prelude.{◌≡◌, ◌==◌, find, option_copied, option_map};
ghost use Rattle.std.specs.Str.{bytes_eq};
ghost use Rattle.frame_lines.specs.Names.{kind_name, kind_named};

use link::{Kind, PlainKind};

const NAMES: [(u64, &str); 12] = [
    (1, "MONITOR"),
    (2, "SUSPEND"),
    (3, "RESUME"),
    (4, "SETUP"),
    (5, "CLOSE"),
    (8, "YES"),
    (9, "NO"),
    (10, "FREE"),
    (11, "BUSY-AGAIN"),
    (12, "CONNECTED"),
    (13, "FAILED"),
    (14, "LET-GO"),
];

// The number beside this name.
fn number_of(names: &[(u64, &str)], word: &[u8]) -> Option<u64>
    ensures { result ≡ option_map (λ e. e.0) (find (λ e. bytes_eq word.now e.1.now) names.now) }
{
    names
        .iter()
        .find(|(_, name)| word == name.as_bytes())
        .map(|(number, _)| *number)
}

// The name beside this number.
fn name_of<'a>(names: &[(u64, &'a str)], number: u64) -> Option<&'a str>
    ensures { option_copied result ≡ option_map (λ e. e.1.now) (find (λ e. e.0 == number) names.now) }
{
    names
        .iter()
        .find(|(known, _)| *known == number)
        .map(|(_, name)| *name)
}

// The number of the kind with this name.
pub(crate) fn kind_named(word: &[u8]) -> Option<u64>
    ensures { result ≡ kind_named word.now }
{
    number_of(&NAMES, word)
}

pub(crate) fn kind_name(kind: Kind) -> &'static str
    ensures { result.now ≡ kind_name kind }
{
    name_of(&NAMES, PlainKind::from(kind).number).unwrap()
}
