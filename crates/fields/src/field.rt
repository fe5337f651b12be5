// Numbers of a stated width. A value with bits outside its width cannot be made.
ghost use Rattle.std.specs.Prelude.{◌≡◌, ◌^◌, ◌<◌, ⊤};

use crate::kinds;
use crate::kinds::Kind;
use std::alloc::AllocError;
use std::marker::PhantomData;

#[derive_where(PartialEq, Eq, Debug)]
pub struct Field<K: Kind> {
    pub bits: u64,
    pub kind: PhantomData<K>,
    ghost fits: { bits < 2 ^ K.WIDTH },
}

// No derive gives it to a struct with a ghost field and a type parameter.
impl<K: Kind> Clone for Field<K> {
    ghost is_clone = { λ x y. y ≡ x };

    ghost is_infallible = { λ _. ⊤ };

    fn clone(&self) -> Result<Field<K>, AllocError> {
        Ok(*self)
    }
}

impl<K: Kind> Copy for Field<K> {}

impl<K: Kind> Default for Field<K> {
    ghost is_default = { λ x. x.bits ≡ 0 };

    fn default() -> Field<K> {
        Field {
            bits: 0,
            kind: PhantomData,
        }
    }
}

pub type Identity = Field<kinds::Identity>;

pub type Ssi = Field<kinds::Ssi>;

pub type Extension = Field<kinds::Extension>;

pub type Identifier = Field<kinds::Identifier>;

pub type CallIdentifier = Field<kinds::CallIdentifier>;

pub type Priority = Field<kinds::Priority>;

pub type Service = Field<kinds::Service>;

pub type AreaSelection = Field<kinds::AreaSelection>;
