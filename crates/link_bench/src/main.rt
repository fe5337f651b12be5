// Times a million takes, each with a send after it, over each link of 4,096 places, with 8 and with
// 4,096 messages waiting, and tells the ratio of the two.
#![tactic(auto)]

use fields::{HandedBack, Identifier, Identity, Key, Refusal};
use frame::{Frames, Trunk};
use link::{Kind, Link, Message, NoCause, Shelf};
use std::alloc::AllocError;
use std::time::Instant;
use std::{fmt, io};

const TURNS: u64 = 1_000_000;

#[derive(Drop)]
enum Failed {
    Io(io::Error),
    Refused(Refusal),
}

// By hand: `main` prints it, and is to say what the error itself says.
impl fmt::Debug for Failed {
    fn fmt<W: fmt::Write>(&self, f: &mut fmt::Formatter<W>) -> fmt::Result {
        match self {
            Failed::Io(error) => error.fmt(f),
            Failed::Refused(refusal) => refusal.fmt(f),
        }
    }
}

impl From<io::Error> for Failed {
    fn from(error: io::Error) -> Failed {
        Failed::Io(error)
    }
}

impl From<AllocError> for Failed {
    fn from(error: AllocError) -> Failed {
        Failed::Io(error.into())
    }
}

impl From<Refusal> for Failed {
    fn from(refusal: Refusal) -> Failed {
        Failed::Refused(refusal)
    }
}

impl<P: Drop> From<HandedBack<P>> for Failed {
    fn from(back: HandedBack<P>) -> Failed {
        Failed::Refused(back.refusal)
    }
}

fn numbered(n: u64) -> Result<Message, Refusal> {
    let key = Key {
        identifier: Identifier::try_from(n % 8)?,
        caller: Identity::try_from(n % (1 << 48))?,
        called: Identity::try_from(n.wrapping_mul(3) % (1 << 48))?,
    };
    let kind = if n % 4 == 0 {
        Kind::No(NoCause::QueueFull)
    } else {
        Kind::Setup
    };
    Ok(Message { kind, key })
}

fn fill<L: Link>(link: &mut L, waiting: u64) -> Result<(), Refusal> {
    for n in 0..waiting {
        link.send(numbered(n)?)?;
    }
    Ok(())
}

// The sum of the callers taken, so that no turn can be left out. A fold would hide that the link
// changes at each turn.
fn turns<L: Link>(link: &mut L) -> Result<u64, Refusal> {
    let mut sum = 0u64;
    for n in 0..TURNS {
        let message = link.take()?;
        sum = sum.wrapping_add(message.key.caller.bits);
        link.send(numbered(n)?)?;
    }
    Ok(sum)
}

// Times the link, says so, and answers the nanoseconds.
fn measured<L: Link>(
    rt: &HostRuntime,
    name: &str,
    link: &mut L,
    waiting: u64,
) -> Result<u128, Failed> {
    fill(link, waiting)?;
    let start = Instant::now(rt)?;
    let sum = turns(link)?;
    let nanos = start.elapsed(rt)?.as_nanos();
    eprintln!(rt; "{name}, {waiting} waiting: {nanos} ns, sum {sum}")?;
    Ok(nanos)
}

fn ratio(rt: &HostRuntime, name: &str, few: u128, many: u128) -> Result<(), Failed> {
    let percent = many.saturating_mul(100) / few.max(1);
    eprintln!(rt; "{name}: 4096 waiting take {percent} % of the time with 8")?;
    Ok(())
}

// A function for each link: made by a closure, a shelf is timed half as long again.
fn shelf(rt: &HostRuntime, waiting: u64) -> Result<u128, Failed> {
    let mut shelf = Shelf::new(vec![in rt.alloc(); numbered(0)?; 4096]?)?;
    measured(rt, "shelf", &mut shelf, waiting)
}

fn trunk(rt: &HostRuntime, waiting: u64) -> Result<u128, Failed> {
    let mut trunk = Trunk::new(Frames(vec![in rt.alloc(); 0u8; 61440]?))?;
    measured(rt, "trunk", &mut trunk, waiting)
}

fn main(rt: HostRuntime) -> Result<(), Failed> {
    ratio(&rt, "shelf", shelf(&rt, 8)?, shelf(&rt, 4096)?)?;
    ratio(&rt, "trunk", trunk(&rt, 8)?, trunk(&rt, 4096)?)
}
