// What the originating office keeps a record of.
use fields::{CallAttributes, CallIdentifier, Identifier, Identity, Key};
use marks::Marks;

#[derive(Clone, Copy, PartialEq, Eq, Debug)]
pub struct Subscriber {
    pub identity: Identity,
    pub busy: bool,
    // the identifiers that he holds
    pub marks: Marks,
    // the identifier last issued to him
    pub last: Identifier,
}

// A call that failed, for which its caller may yet ask completion.
#[derive(Clone, Copy, PartialEq, Eq, Debug)]
pub struct RetainedCall {
    pub caller: Identity,
    pub called: Identity,
    pub identifier: CallIdentifier,
    pub call: CallAttributes,
    // it runs while the clock is below this
    pub until: u64,
}

// How far a request has come. Asked of the other office; Invoked and waiting for the called
// party; Recalled to the caller; Parked while the caller is busy; SettingUp the call; Closing
// until the other office lets go. All but Closing are live.
#[derive(Clone, Copy, PartialEq, Eq, Debug)]
pub enum Phase {
    Asked,
    Invoked,
    Recalled,
    Parked,
    SettingUp,
    Closing,
}

// From when a request is due: by its service in any phase but SettingUp and Closing, and by its
// recall too while it is Recalled.
#[derive(Clone, Copy, PartialEq, Eq, Debug)]
pub struct Deadlines {
    pub service: u64,
    pub recall: u64,
}

#[derive(Clone, Copy, PartialEq, Eq, Debug)]
pub struct Request {
    pub number: u64,
    pub key: Key,
    pub call: CallAttributes,
    pub phase: Phase,
    pub deadlines: Deadlines,
}
