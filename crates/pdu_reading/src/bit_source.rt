// The bits of a PDU as a source of its elements.
ghost use Rattle.std.specs.Prelude.{◌≡◌};
ghost use Rattle.pdu.specs.Bits.{bit_hearing};

use bits::{Bits, ElementName, Fault, Layer, Reason};
use source::Source;
use std::marker::Model;

// A place in the bits.
#[derive(Drop)]
pub struct BitSource<'a> {
    bits: &'a Bits<'a>,
    at: usize,
}

impl<'a> Model for BitSource<'a> {
    ghost use Rattle.std.specs.Prelude.{List, ℕ};

    ghost Value = { List ℕ × ℕ };

    ghost view = { λ s. (s.bits.now, s.at) };
}

impl<'a> BitSource<'a> {
    pub fn new(bits: &'a Bits<'a>, at: usize) -> BitSource<'a>
        ensures { result ≡ (bits.now, at) }
    {
        BitSource { bits, at }
    }

    // Where the next element begins.
    pub fn place(&self) -> usize
        ensures { result ≡ self.now.1 }
    {
        self.at
    }
}

impl<'a> Source for BitSource<'a> {
    type Fault = Fault;

    ghost hearing = { bit_hearing };

    fn number(&self, element: ElementName, width: usize) -> Result<(u64, BitSource<'a>), Fault> {
        let (value, at) = self.bits.read(self.at, width, element)?;
        Ok((
            value,
            BitSource {
                bits: self.bits,
                at,
            },
        ))
    }

    fn unlisted(&self, element: ElementName) -> Fault {
        Fault {
            reason: Reason::NotListed,
            layer: Layer::Element,
            element: Some(element),
            position: self.at,
        }
    }

    // A bit says whether any optional element is present, and one more announces the element.
    fn present(&self) -> Result<(bool, BitSource<'a>), Fault> {
        let (any, rest) = self.number(ElementName::Optional, 1)?;
        if any == 0 {
            return Ok((false, rest));
        }
        let (announced, rest) = rest.number(ElementName::RetainCapability, 1)?;
        if announced == 0 {
            return Err(Fault {
                reason: Reason::NotListed,
                layer: Layer::Pdu,
                element: Some(ElementName::Optional),
                position: self.at,
            });
        }
        Ok((true, rest))
    }

    // A rejection is longer than an acceptance.
    fn rejects(&self) -> bool {
        self.bits.reaches(self.at, 82)
    }
}
