// The bits of a PDU as it is written, before they go out.
ghost use Rattle.std.specs.Prelude.{◌≡◌, ◌≤◌, [], length};
ghost use Rattle.bits.specs.Bits.{digits, Bitlike};
ghost use Rattle.bits.specs.Buffers.{Adds, put_out};

use crate::reading::bytes_for;
use fields::Refusal;
use std::marker::Model;

// The longest PDU has 272 bits. Those after the first `len` are 0.
// Bytes: the library's bounded list is not `Copy`, and takes longer to fill.
#[derive(Clone, Copy, PartialEq, Eq, Debug)]
pub struct BitBuffer {
    bytes: [u8; 34],
    len: usize,
}

impl Model for BitBuffer {
    ghost use Rattle.std.specs.Prelude.{List, ℕ, length};

    ghost Value = { List ℕ };

    ghost use Rattle.bits.specs.Bits.{pack};
    ghost use Rattle.bits.specs.Held.{held, Holds, held-packed, held-count};

    ghost view = { held };

    ghost invariant = { Holds };

    ghost inverse = { λ xs. record { bytes = pack 34 xs; len = length xs } };

    ghost inverse_ok = { λ b h i. record { bytes = held-packed b h i; len = held-count b h i } };
}

impl BitBuffer {
    pub fn new() -> BitBuffer
        ensures { result ≡ [] }
    {
        BitBuffer {
            bytes: [0; 34],
            len: 0,
        }
    }

    // Appends the lowest `width` bits of `value`, the highest first. What does not fit is dropped.
    pub fn push(&mut self, width: usize, value: u64)
        requires { width ≤ 64 }
        ensures { Adds self.old (digits width value) self.new }
    {
        for place in (0..width).rev() {
            if self.len < 272 {
                let bit = u8::from((value >> place) & 1 == 1);
                self.bytes[self.len / 8] += bit << (7 - self.len % 8);
                self.len += 1;
            }
        }
    }

    // Puts the bytes that hold the bits at the front of `out`, and answers the count of bits. The caller lends the bytes, so no heap is needed.
    pub fn put_out(&self, out: &mut [u8]) -> Result<usize, Refusal>
        ensures value { (result, out.new) ≡ put_out self.now out.old }
        ensures bits { Bitlike self.now }
        ensures room { length self.now ≤ 272 }
    {
        let n = bytes_for(self.len);
        if out.len() < n {
            return Err(Refusal::TooLittleRoom);
        }
        out[..n].copy_from_slice(&self.bytes[..n]);
        Ok(self.len)
    }
}
