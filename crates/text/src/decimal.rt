// Numbers in decimal.
ghost use Rattle.std.specs.Prelude.{◌≡◌, ◌^◌, ◌<◌, IfSome, Some};
ghost use Rattle.text.specs.Numbers.{number_of, spaced_of};

use std::fmt;

// The most digits that a number may have.
const DIGITS: usize = 15;

// The value of a word of 1 to 15 digits.
pub fn number(word: &[u8]) -> Option<u64>
    ensures value { result ≡ number_of word.now }
    ensures small { IfSome result (λ n. n < 10 ^ 15) }
{
    // A loop: a test of all digits and then `parse` go over the word three times.
    if word.is_empty() || word.len() > DIGITS {
        return None;
    }
    let mut value = 0;
    for digit in word {
        if *digit < b'0' || *digit > b'9' {
            return None;
        }
        value = value * 10 + u64::from(*digit - b'0');
    }
    Some(value)
}

// Numbers, each after a space.
#[derive(Clone, Copy, Debug)]
pub struct Spaced<'a>(pub &'a [u64]);

impl fmt::Display for Spaced<'_> {
    ghost output = { λ numbers. Some (spaced_of numbers.0.now) };

    fn fmt<W: fmt::Write>(&self, f: &mut fmt::Formatter<W>) -> fmt::Result {
        for number in self.0 {
            write!(f, " {number}")?;
        }
        Ok(())
    }
}
