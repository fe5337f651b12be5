// A field made from a plain number: one outside its width is refused.
ghost use Rattle.std.specs.Prelude.{◌≡◌};
ghost use Rattle.fields.specs.Fields.{field_of, checked};

use crate::field::Field;
use crate::kinds::Kind;
use crate::refusal::Refusal;
use std::marker::PhantomData;

impl<K: Kind> TryFrom<u64> for Field<K> {
    type Error = Refusal;

    ghost try_from_gives = { λ bits r. r ≡ checked K.WIDTH (field_of K.Kind) bits };

    fn try_from(bits: u64) -> Result<Field<K>, Refusal> {
        if bits < 1 << K::WIDTH {
            Ok(Field {
                bits,
                kind: PhantomData,
            })
        } else {
            Err(Refusal::OutsideField)
        }
    }
}
