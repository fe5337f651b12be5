// What names a record.
use crate::field::{Identifier, Identity};

// Names the record that a message concerns: the one in which all three agree.
#[derive(Clone, Copy, PartialEq, Eq, Debug)]
pub struct Key {
    pub identifier: Identifier,
    pub caller: Identity,
    pub called: Identity,
}
