// Identifiers held, released and issued.
ghost use Rattle.std.specs.Prelude.{◌≡◌};
ghost use Rattle.marks.specs.Marks.{no_marks, held_count, all_held, hold, release, next_issued};

use crate::mask::Marks;
use fields::Identifier;
use std::marker::PhantomData;

impl Marks {
    // No identifier is held.
    pub fn none() -> Marks
        ensures { result ≡ no_marks }
    {
        Marks { bits: 0 }
    }

    // How many identifiers are held.
    pub fn held_count(self) -> u32
        ensures { result ≡ held_count self.bits }
    {
        self.bits.count_ones()
    }

    pub fn are_all_held(self) -> bool
        ensures { result ≡ all_held self.bits }
    {
        self.held_count() == 8
    }

    pub fn hold(self, identifier: Identifier) -> Marks
        ensures { result ≡ hold self identifier }
    {
        let mark = 1u8 << identifier.bits;
        Marks {
            bits: self.bits | mark,
        }
    }

    pub fn release(self, identifier: Identifier) -> Marks
        ensures { result ≡ release self identifier }
    {
        let mark = 1u8 << identifier.bits;
        Marks {
            bits: self.bits & !mark,
        }
    }

    // The nearest identifier after the last issued that is not held, 7 followed by 0.
    pub fn next_issued(self, last: Identifier) -> Option<Identifier>
        ensures { result ≡ next_issued self last }
    {
        if self.are_all_held() {
            return None;
        }
        let from = (last.bits as u32 + 1) % 8;
        let turned = (!self.bits).rotate_right(from);
        let nearest = (turned.trailing_zeros() + from) % 8;
        Some(Identifier {
            bits: u64::from(nearest),
            kind: PhantomData,
        })
    }
}
