// The bits of what is told.
ghost use Rattle.std.specs.Prelude.{◌≡◌, []};
ghost use Rattle.std.proofs.Common.{ap};
ghost use Rattle.bits.specs.Buffers.{Adds};
ghost use Rattle.pdu.specs.Bits.{bits_told, all_bits};
ghost use Rattle.pdu_writing.specs.Spelling.{spelled, spelled-more};

use bits::BitBuffer;
use source::{Listener, Told};

// A bit says whether any optional element is present, and one more announces the element.
#[tactic(auto, unfolding(bits::specs::Bits::digits))]
fn push_told(buffer: &mut BitBuffer, told: &Told)
    ensures { Adds buffer.old (bits_told told.now) buffer.new }
{
    match told {
        Told::Element(code) => buffer.push(code.width, code.value),
        Told::Present(false) => buffer.push(1, 0),
        Told::Present(true) => buffer.push(2, 3),
    }
}

// Spells what it hears, so that no list is kept.
#[derive(Drop)]
pub(crate) struct Spelling {
    pub(crate) bits: BitBuffer,
}

impl Listener for Spelling {
    ghost after = { λ spelling more. record { bits = spelled spelling.bits more } };

    ghost more = { λ spelling xs ys. ap (λ l. record { bits = l }) (spelled-more spelling.bits xs ys) };

    #[tactic(auto, using(crate::proofs::Spelled::heard))]
    fn hear(&mut self, one: Told) {
        push_told(&mut self.bits, &one);
    }
}

// A buffer with the bits of a list that stands already, as far as there is room.
pub fn spell(told: &[Told]) -> BitBuffer
    ensures { Adds [] (all_bits told.now) result }
{
    let mut buffer = BitBuffer::new();
    for one in told {
        push_told(&mut buffer, one);
    }
    buffer
}
