// The words of a line.
ghost use Rattle.std.specs.Prelude.{◌≡◌, ◌<◌, ◌≤◌, ℕ, List, length, slice_get};
ghost use Rattle.std.specs.Iterator.{YieldsFirstRef, item_count};
ghost use Rattle.std.specs.List.{prefix_len};
ghost use Rattle.std.specs.Option.{option_copied};
ghost use Rattle.text.specs.Numbers.{numbers_of};
ghost use Rattle.text.specs.Words.{is_blank, of_kind, words, starts_with, word_of, rest_of};

use crate::decimal::number;
use std::marker::Model;

fn is_blank(byte: u8) -> bool
    ensures { result ≡ is_blank byte }
{
    matches!(byte, b' ' | b'\t' | b'\r')
}

// How many bytes the line begins with that are blanks, or that are none.
fn front(line: &[u8], blank: bool) -> usize
    ensures value { result ≡ prefix_len (of_kind blank) line.now }
    ensures within { result ≤ length line.now }
{
    line.iter()
        .position(|byte| is_blank(*byte) != blank)
        .unwrap_or(line.len())
}

// The first word and the bytes that follow it, which `Words` does not tell. The word is empty where no word is left.
pub fn next_word(line: &[u8]) -> (&[u8], &[u8])
    ensures first { result.0.now ≡ word_of line.now }
    ensures rest { result.1.now ≡ rest_of line.now }
    ensures splits { words line.now ≡ starts_with result.0.now (words result.1.now) }
    ensures shorter { 0 < length result.0.now → length result.1.now < length line.now }
{
    let led = &line[front(line, true)..];
    led.split_at(front(led, false))
}

// The words that are left of a line.
#[derive(Clone, Debug, Drop)]
pub struct Words<'a> {
    rest: &'a [u8],
}

impl<'a> Model for Words<'a> {
    ghost Value = { List (List ℕ) };

    ghost view = { λ left. words left.rest.now };
}

impl<'a> Words<'a> {
    pub fn of(line: &'a [u8]) -> Words<'a>
        ensures { result ≡ words line.now }
    {
        Words { rest: line }
    }

    // The next word, which stays.
    pub fn peek(&self) -> Option<&'a [u8]>
        ensures { option_copied result ≡ slice_get self.now 0 }
    {
        Words { rest: self.rest }.next()
    }

    // The line from where the words that are left begin or blanks before them.
    pub fn as_bytes(&self) -> &'a [u8]
        ensures { words result.now ≡ self.now }
    {
        let Words { rest } = *self;
        rest
    }

    // The values of the words that are left, where they are exactly N and each is a number.
    pub fn numbers<const N: usize>(mut self) -> Option<[u64; N]>
        ensures { result ≡ numbers_of N self.entry }
    {
        let mut values = [0; N];
        for value in values.iter_mut() {
            *value = number(self.next()?)?;
        }
        self.next().is_none().then_some(values)
    }
}

impl<'a> Iterator for Words<'a> {
    type Item = &'a [u8];

    ghost next_gives = { YieldsFirstRef (λ left. left) };

    ghost remaining = { item_count (λ left. left) };

    fn next(&mut self) -> Option<&'a [u8]> {
        // Where no word is left the blanks are gone too, so that they are not looked at again.
        let (word, rest) = next_word(self.rest);
        self.rest = rest;
        if word.is_empty() {
            return None;
        }
        Some(word)
    }
}
