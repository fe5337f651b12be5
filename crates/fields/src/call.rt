// What a call is made with.
use crate::field::{Priority, Service};

// It stays the same from the failed call to the foreman's queue.
#[derive(Clone, Copy, PartialEq, Eq, Debug)]
pub struct CallAttributes {
    pub priority: Priority,
    pub service: Service,
}
