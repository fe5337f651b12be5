// Numbers read from bits.
ghost use Rattle.std.specs.Prelude.{◌≡◌, ◌+◌, ◌<◌, ◌≤◌, length, nat_le, slice_index};
ghost use Rattle.std.specs.Option.{SomeIff};
ghost use Rattle.bits.specs.Bits.{bits_of, bytes_for};
ghost use Rattle.bits.specs.Reading.{taken};

use crate::fault::{ElementName, Fault, Layer, Reason};
use std::marker::Model;

// How many bytes hold so many bits.
pub fn bytes_for(bits: usize) -> usize
    ensures { result ≡ bytes_for bits }
{
    bits.div_ceil(8)
}

// The first `count` bits of the bytes.
#[derive(Debug, Drop)]
pub struct Bits<'a> {
    bytes: &'a [u8],
    count: usize,
}

impl<'a> Model for Bits<'a> {
    ghost use Rattle.std.specs.Prelude.{List, ℕ, ◌*◌, ◌≤◌, length};
    ghost use Rattle.bits.specs.Bits.{bits_of};

    ghost Value = { List ℕ };

    ghost view = { λ b. bits_of b.bytes.now b.count };

    ghost invariant = { λ b. b.count ≤ 8 * length b.bytes.now };
}

impl<'a> Bits<'a> {
    // The first `count` bits of the bytes, or all where there are fewer.
    pub fn new(bytes: &'a [u8], count: usize) -> Bits<'a>
        ensures { result ≡ bits_of bytes.now count }
    {
        Bits {
            bytes,
            count: count.min(bytes.len().saturating_mul(8)),
        }
    }

    // The place after `width` bits from `at` on, where they all stand.
    fn end(&self, at: usize, width: usize) -> Option<usize>
        ensures { SomeIff result (at + width ≤ length self.now) (at + width) }
    {
        if at <= self.count && width <= self.count - at {
            Some(at + width)
        } else {
            None
        }
    }

    // Whether `width` bits stand from `at` on.
    pub fn reaches(&self, at: usize, width: usize) -> bool
        ensures { result ≡ nat_le (at + width) (length self.now) }
    {
        self.end(at, width).is_some()
    }

    fn bit(&self, at: usize) -> u8
        requires { at < length self.now }
        ensures value { result ≡ slice_index self.now at }
        ensures bit { result < 2 }
    {
        (self.bytes[at / 8] >> (7 - at % 8)) & 1
    }

    // The bits from `at` on as a number, the first the highest, and the place after them.
    pub fn read(&self, at: usize, width: usize, element: ElementName) -> Result<(u64, usize), Fault>
        requires { width ≤ 64 }
        ensures { result ≡ taken width element self.now at }
    {
        let Some(end) = self.end(at, width) else {
            return Err(Fault {
                reason: Reason::EndsInside,
                layer: Layer::Bits,
                element: Some(element),
                position: at,
            });
        };
        // A loop: that no turn of a `fold` is over 64 bits would stand on all the turns before it.
        let mut value = 0;
        for place in at..end {
            value = value * 2 + u64::from(self.bit(place));
        }
        Ok((value, end))
    }
}
