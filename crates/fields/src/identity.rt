// An identity and its halves.
ghost use Rattle.std.specs.Prelude.{◌≡◌, ◌+◌, ◌*◌, ◌/◌, ◌%◌, ◌^◌};
ghost use Rattle.fields.specs.Values.{joined, parts_of};

use crate::field::{Extension, Field, Identity, Ssi};
use std::marker::PhantomData;

impl Identity {
    // A pair has no better reading as a conversion: `Identity::from((ssi, extension))`.
    pub fn of(ssi: Ssi, extension: Extension) -> Identity
        ensures value { result ≡ joined ssi extension }
        ensures parts { parts_of result ≡ (ssi, extension) }
    {
        Field {
            bits: ssi.bits * (1 << 24) + extension.bits,
            kind: PhantomData,
        }
    }

    fn upper(self) -> Ssi
        ensures { result.bits ≡ self.bits / 2 ^ 24 }
    {
        Field {
            bits: self.bits >> 24,
            kind: PhantomData,
        }
    }

    fn lower(self) -> Extension
        ensures { result.bits ≡ self.bits % 2 ^ 24 }
    {
        Field {
            bits: self.bits % (1 << 24),
            kind: PhantomData,
        }
    }

    // A pair is answered, as `of` takes its two.
    pub fn parts(self) -> (Ssi, Extension)
        ensures value { result ≡ parts_of self }
        ensures whole { joined result.0 result.1 ≡ self }
    {
        (self.upper(), self.lower())
    }
}
