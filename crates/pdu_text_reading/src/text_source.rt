// The words of a text as a source of the elements of a PDU.
ghost use Rattle.std.specs.Prelude.{◌≡◌};
ghost use Rattle.text.specs.Words.{words};
ghost use Rattle.pdu_text.specs.Hearing.{text_hearing, any_left};

use bits::ElementName;
use field_text::{TextFault, field_value, is_field};
use source::Source;
use std::marker::Model;
use text::Words;

// What is left of a text. In clauses it is the list of the words.
// An iterator over them would not do: a source stays as it is, and what is left is answered beside the value.
#[derive(Drop)]
pub struct TextSource<'a> {
    left: &'a [u8],
}

impl<'a> Model for TextSource<'a> {
    ghost use Rattle.std.specs.Prelude.{List, ℕ};
    ghost use Rattle.text.specs.Words.{words};

    ghost Value = { List (List ℕ) };

    ghost view = { λ s. words s.left.now };
}

impl<'a> TextSource<'a> {
    pub fn new(text: &'a [u8]) -> TextSource<'a>
        ensures { result ≡ words text.now }
    {
        TextSource { left: text }
    }

    // The text from where the words that are left begin or blanks before them.
    pub fn as_bytes(&self) -> &'a [u8]
        ensures { words result.now ≡ self.now }
    {
        let TextSource { left } = *self;
        left
    }

    // Whether a word is left.
    pub fn any_left(&self) -> bool
        ensures { result ≡ any_left self.now }
    {
        Words::of(self.left).peek().is_some()
    }
}

impl<'a> Source for TextSource<'a> {
    type Fault = TextFault;

    ghost hearing = { text_hearing };

    fn number(
        &self,
        element: ElementName,
        width: usize,
    ) -> Result<(u64, TextSource<'a>), TextFault> {
        let mut words = Words::of(self.left);
        let word = words.next().ok_or(TextFault::Unreadable)?;
        let value = field_value(word, element, width).ok_or(TextFault::Unreadable)?;
        Ok((value, TextSource::new(words.as_bytes())))
    }

    fn unlisted(&self, _element: ElementName) -> TextFault {
        TextFault::NotListed
    }

    // An optional element is the last.
    fn present(&self) -> Result<(bool, TextSource<'a>), TextFault> {
        Ok((self.any_left(), TextSource { left: self.left }))
    }

    // Only an acceptance begins with the identifier.
    #[tactic(auto, unfolding(field_text::specs::Fields::begins))]
    fn rejects(&self) -> bool {
        let first = Words::of(self.left).peek();
        first.is_none_or(|word| !is_field(word, ElementName::Ccbsi))
    }
}
