// What the terminating office keeps.
use fields::{CallAttributes, Identity, Key, Service};
use std::marker::Model;

#[derive(Clone, Copy, PartialEq, Eq, Debug)]
pub struct Line {
    pub identity: Identity,
    pub service: Service,
    pub busy: bool,
}

// How far a monitor has come. Waiting for the line; Offered to the caller; Suspended while the
// caller is busy; Ringing at the line.
#[derive(Clone, Copy, PartialEq, Eq, Debug)]
pub enum Stage {
    Waiting,
    Offered,
    Suspended,
    Ringing,
}

// A caller's place in the queue of the called party.
#[derive(Clone, Copy, PartialEq, Eq, Debug)]
pub struct Monitor {
    pub key: Key,
    pub call: CallAttributes,
    pub stage: Stage,
}

// The monitors stand in the order in which they came. Their memory was reserved when the office
// was made; `places` of them may stand, since the memory that was had may hold more.
#[derive(Debug, Drop)]
pub struct Terminating {
    pub(crate) lines: Vec<Line>,
    pub(crate) monitors: Vec<Monitor>,
    pub(crate) places: usize,
}

impl Model for Terminating {
    ghost use Rattle.std.specs.Prelude.{◌≤◌, vec_len, vec_capacity};
    ghost use Rattle.terminating.specs.Office.{Office};

    ghost Value = { Office };

    ghost view = { λ t. record { lines = t.lines.items; monitors = t.monitors.items; places = t.places } };

    ghost invariant = { λ t. (vec_len t.monitors ≤ t.places) × (t.places ≤ vec_capacity t.monitors) };
}
