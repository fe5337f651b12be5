// The answer to LIST.
ghost use Rattle.std.specs.Prelude.{◌≡◌, ◌<◌, ◌≤◌, [], ◌∷◌, ◌++◌, length, slice_get};
ghost use Rattle.std.specs.Option.{option_copied};
ghost use Rattle.pdu.specs.Lists.{members};

use arrayvec::ArrayVec;
use element::{RejectCause, UpToFive};
use fields::{Identifier, Identity};
use std::mem;

// Up to five, in order: cases, since the library's bounded list is not `Copy`.
#[derive(Clone, Copy, PartialEq, Eq, Debug, Drop)]
pub enum Few<T> {
    Zero,
    One(T),
    Two(T, T),
    Three(T, T, T),
    Four(T, T, T, T),
    Five(T, T, T, T, T),
}

impl<T> Few<T> {
    pub fn new() -> Few<T>
        ensures { members result ≡ [] }
    {
        Few::Zero
    }

    pub fn count(&self) -> UpToFive
        ensures { result.count ≡ length (members self.now) }
    {
        let count = match self {
            Few::Zero => 0,
            Few::One(_) => 1,
            Few::Two(_, _) => 2,
            Few::Three(_, _, _) => 3,
            Few::Four(_, _, _, _) => 4,
            Few::Five(_, _, _, _, _) => 5,
        };
        UpToFive { count }
    }

    // The member at this place. By reference, so that members need not be `Copy`.
    pub fn get(&self, at: usize) -> Option<&T>
        ensures { option_copied result ≡ slice_get (members self.now) at }
    {
        match self {
            Few::Zero => None,
            Few::One(a) => [a].get(at).copied(),
            Few::Two(a, b) => [a, b].get(at).copied(),
            Few::Three(a, b, c) => [a, b, c].get(at).copied(),
            Few::Four(a, b, c, d) => [a, b, c, d].get(at).copied(),
            Few::Five(a, b, c, d, e) => [a, b, c, d, e].get(at).copied(),
        }
    }
}

impl<T: Drop> Few<T> {
    pub fn push(&mut self, item: T)
        requires { length (members self.old) < 5 }
        ensures { members self.new ≡ members self.old ++ item ∷ [] }
    {
        *self = match mem::replace(self, Few::Zero) {
            Few::Zero => Few::One(item),
            Few::One(a) => Few::Two(a, item),
            Few::Two(a, b) => Few::Three(a, b, item),
            Few::Three(a, b, c) => Few::Four(a, b, c, item),
            Few::Four(a, b, c, d) => Few::Five(a, b, c, d, item),
            Few::Five(..) => unreachable!(),
        };
    }
}

impl<T: Copy + Default> Few<T> {
    // Copies of them, since they lie in no slice.
    pub fn members(&self) -> ArrayVec<T, 5>
        ensures { result.items ≡ members self.now }
    {
        match *self {
            Few::Zero => ArrayVec::new(),
            Few::One(a) => copied(&[a]),
            Few::Two(a, b) => copied(&[a, b]),
            Few::Three(a, b, c) => copied(&[a, b, c]),
            Few::Four(a, b, c, d) => copied(&[a, b, c, d]),
            Few::Five(a, b, c, d, e) => copied(&[a, b, c, d, e]),
        }
    }
}

fn copied<T: Copy + Default>(items: &[T]) -> ArrayVec<T, 5>
    requires { length items.now ≤ 5 }
    ensures { result.items ≡ items.now }
{
    ArrayVec::try_from(items).unwrap()
}

#[derive(Clone, Copy, PartialEq, Eq, Debug, Default)]
pub struct ListedRequest {
    pub ccbsi: Identifier,
    pub called: Identity,
}

// The two need not agree.
#[derive(Clone, Copy, PartialEq, Eq, Debug)]
pub struct RequestCounts {
    pub list_length: UpToFive,
    pub request_count: UpToFive,
}

#[derive(Clone, Copy, PartialEq, Eq, Debug)]
pub enum Listing {
    Count(RequestCounts),
    Identifiers(Few<Identifier>),
    Details(Few<ListedRequest>),
}

pub type ListAck = Result<Listing, RejectCause>;
