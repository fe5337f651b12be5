// What a line can ask for, in numbers of any size: the offices judge them. The cases name what
// follows their letter, in its order.
use std::error::Error;
use std::fmt;

#[derive(Clone, Copy, PartialEq, Eq, Debug)]
pub enum Command {
    // before the offices start
    Subscriber {
        identity: u64,
    },
    Line {
        identity: u64,
        service: u64,
    },
    Start,
    // at the originating office
    Retain {
        caller: u64,
        called: u64,
        identifier: u64,
        priority: u64,
        service: u64,
    },
    Request {
        caller: u64,
        identifier: u64,
    },
    Accept {
        caller: u64,
        identifier: u64,
    },
    Cancel {
        caller: u64,
        identifier: u64,
    },
    MarkCaller {
        caller: u64,
        mark: u64,
    },
    Wake {
        caller: u64,
    },
    Tick {
        time: u64,
    },
    Due,
    HearOriginating,
    // at the terminating office
    MarkLine {
        line: u64,
        mark: u64,
    },
    ServeLine {
        line: u64,
    },
    LineOutcome {
        line: u64,
        outcome: u64,
    },
    HearTerminating,
}

// A line that is no command.
#[derive(Clone, Copy, PartialEq, Eq, Debug)]
pub struct Unreadable;

impl fmt::Display for Unreadable {
    ghost use Rattle.std.specs.Prelude.{Some, codes};

    ghost output = { λ _. Some (codes "no command") };

    fn fmt<W: fmt::Write>(&self, f: &mut fmt::Formatter<W>) -> fmt::Result {
        write!(f, "no command")
    }
}

impl Error for Unreadable {}
