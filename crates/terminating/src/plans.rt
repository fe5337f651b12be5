// What the office does with a message: decided before anything is changed.
ghost use Rattle.std.specs.Prelude.{◌≡◌};
ghost use Rattle.terminating.specs.declared.office.Stage.TheVariants.{Offered};
ghost use Rattle.terminating.specs.Hearing.{dropped, let_go, turned, admission_at, admission, admitted, plan_new, is_busy, set_up, plan_at, plan_of, applied};

use crate::office::{Line, Monitor, Stage, Terminating};
use fields::{CallAttributes, Identity, Key};
use link::{Kind, Message, NoCause};
use record::{at_limit, erase_first, first, put_first};

// What a message does to the monitors, as a value, since the reply goes out before it is done.
#[derive(Clone, Copy, PartialEq, Eq, Debug)]
pub enum Change {
    Keep,
    Store(Monitor),
    // in the place of the monitor that the message concerns
    Put(Monitor),
    Erase,
}

// What a message does, and what is sent back.
#[derive(Clone, Copy, PartialEq, Eq, Debug)]
pub struct Plan {
    pub change: Change,
    pub reply: Option<Kind>,
}

impl Plan {
    // The other office may forget the request: nothing more will be sent about it.
    fn let_go(change: Change) -> Plan
        ensures { result ≡ let_go change }
    {
        Plan {
            change,
            reply: Some(Kind::LetGo),
        }
    }

    // The monitor goes to the stage, and nothing is sent.
    fn turned(monitor: Monitor, stage: Stage) -> Plan
        ensures { result ≡ turned stage monitor }
    {
        Plan {
            change: Change::Put(monitor.at_stage(stage)),
            reply: None,
        }
    }

    // Nothing is done with the message.
    fn dropped() -> Plan
        ensures { result ≡ dropped }
    {
        Plan {
            change: Change::Keep,
            reply: None,
        }
    }
}

impl Terminating {
    // Whether a MONITOR of this call for the line may stand, or why it is answered NO.
    fn admission_at(&self, line: Line, call: CallAttributes) -> Result<(), NoCause>
        ensures { result ≡ admission_at self.now line call }
    {
        if line.service != call.service {
            return Err(NoCause::OtherService);
        }
        if at_limit(&self.monitors, line.identity, |_| true) {
            return Err(NoCause::QueueFull);
        }
        if self.monitors.len() >= self.places {
            return Err(NoCause::TableFull);
        }
        Ok(())
    }

    fn admission(&self, called: Identity, call: CallAttributes) -> Result<(), NoCause>
        ensures { result ≡ admission self.now called call }
    {
        let line = first(&self.lines, |line| line.identity == called);
        self.admission_at(line.ok_or(NoCause::NoSuchLine)?, call)
    }

    // NO with its cause, or the monitor is stored and YES.
    fn plan_monitor(&self, key: Key, call: CallAttributes) -> Plan
        ensures { result ≡ admitted key call (admission self.now key.called call) }
    {
        match self.admission(key.called, call) {
            Ok(()) => Plan {
                change: Change::Store(Monitor {
                    key,
                    call,
                    stage: Stage::Waiting,
                }),
                reply: Some(Kind::Yes),
            },
            Err(cause) => Plan {
                change: Change::Keep,
                reply: Some(Kind::No(cause)),
            },
        }
    }

    // What a message does of whose key no monitor stands.
    fn plan_new(&self, message: Message) -> Plan
        ensures { result ≡ plan_new self.now message.key message.kind }
    {
        match message.kind {
            Kind::Monitor(call) => self.plan_monitor(message.key, call),
            Kind::Close => Plan::let_go(Change::Keep),
            _ => Plan::dropped(),
        }
    }

    // Whether the line is busy; one that is not here is.
    fn is_busy(&self, line: Identity) -> bool
        ensures { result ≡ is_busy self.now line }
    {
        first(&self.lines, |found| found.identity == line).is_none_or(|found| found.busy)
    }

    // What SETUP does to a monitor that is offered the line.
    fn set_up(&self, monitor: Monitor) -> Plan
        ensures { result ≡ set_up monitor (is_busy self.now monitor.key.called) Offered }
    {
        if self.is_busy(monitor.key.called) {
            Plan {
                change: Change::Put(monitor.at_stage(Stage::Waiting)),
                reply: Some(Kind::BusyAgain),
            }
        } else {
            Plan::turned(monitor, Stage::Ringing)
        }
    }

    // What a message does to the monitor that it concerns.
    fn plan_at(&self, monitor: Monitor, kind: Kind) -> Plan
        ensures { result ≡ plan_at self.now monitor monitor.stage kind }
    {
        match (monitor.stage, kind) {
            (Stage::Offered, Kind::Suspend) => Plan::turned(monitor, Stage::Suspended),
            (Stage::Suspended, Kind::Resume) => Plan::turned(monitor, Stage::Waiting),
            (Stage::Offered, Kind::Setup) => self.set_up(monitor),
            (_, Kind::Close) => Plan::let_go(Change::Erase),
            _ => Plan::dropped(),
        }
    }

    pub(crate) fn plan(&self, message: Message) -> Plan
        ensures { result ≡ plan_of self.now message }
    {
        match first(&self.monitors, |monitor| monitor.key == message.key) {
            Some(monitor) => self.plan_at(monitor, message.kind),
            None => self.plan_new(message),
        }
    }

    pub(crate) fn apply(&mut self, key: Key, change: Change)
        ensures { self.new ≡ applied self.old key change }
    {
        let has_key = |monitor: &Monitor| monitor.key == key;
        match change {
            Change::Keep => {}
            Change::Store(monitor) => {
                if self.monitors.len() < self.places {
                    self.monitors.push_reserved(monitor);
                }
            }
            Change::Put(monitor) => put_first(&mut self.monitors, has_key, monitor),
            Change::Erase => erase_first(&mut self.monitors, has_key),
        }
    }
}
