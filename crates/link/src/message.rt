// The messages that the two offices exchange.
use fields::{CallAttributes, Key};

// Why the terminating office says NO.
#[derive(Clone, Copy, PartialEq, Eq, Debug)]
pub enum NoCause {
    NoSuchLine,
    OtherService,
    QueueFull,
    TableFull,
}

// The first five go to the terminating office, the others come back.
#[derive(Clone, Copy, PartialEq, Eq, Debug)]
pub enum Kind {
    Monitor(CallAttributes),
    Suspend,
    Resume,
    Setup,
    Close,
    Yes,
    No(NoCause),
    Free,
    BusyAgain,
    Connected,
    Failed,
    LetGo,
}

#[derive(Clone, Copy, PartialEq, Eq, Debug)]
pub struct Message {
    pub kind: Kind,
    pub key: Key,
}

// A party's halves as plain numbers.
#[derive(Clone, Copy, PartialEq, Eq, Debug)]
pub struct PlainParty {
    pub ssi: u64,
    pub extension: u64,
}

#[derive(Clone, Copy, PartialEq, Eq, Debug)]
pub struct PlainKey {
    pub identifier: u64,
    pub caller: PlainParty,
    pub called: PlainParty,
}

// A kind's number and what it carries. What it does not use is 0.
#[derive(Clone, Copy, PartialEq, Eq, Debug)]
pub struct PlainKind {
    pub number: u64,
    pub priority: u64,
    pub service: u64,
    pub cause: u64,
}

// A message as plain numbers, which may be those of no message.
#[derive(Clone, Copy, PartialEq, Eq, Debug)]
pub struct PlainMessage {
    pub kind: PlainKind,
    pub key: PlainKey,
}
