// The tests by which retained calls and requests are sought, and what becomes of the records.
ghost use Rattle.std.specs.Prelude.{◌≡◌};
ghost use Rattle.requests.specs.Records.{is_live, can_end, is_subscriber, runs, has_run_out, runs_as, has_key, is_named, is_living, is_joined, is_parked_of, is_over, is_due, is_listed, at_phase, recalled_until, served_until, marked, issued, freed};

use crate::records::{Deadlines, Phase, Request, RetainedCall, Subscriber};
use fields::{CallIdentifier, Identifier, Identity, Key, Service};
use record::Record;

impl Phase {
    pub fn is_live(self) -> bool
        ensures { result ≡ is_live self }
    {
        self != Phase::Closing
    }

    // Whether the caller, or the time, may end the request. One pattern for two cases, where `==`
    // would be two comparisons.
    pub fn can_end(self) -> bool
        ensures { result ≡ can_end self }
    {
        !matches!(self, Phase::SettingUp | Phase::Closing)
    }
}

// What changes a field of a copy is a struct update: no derive or trait says it shorter.
impl Subscriber {
    pub fn is_subscriber(&self, identity: Identity) -> bool
        ensures { result ≡ is_subscriber identity self.now }
    {
        self.identity == identity
    }

    pub fn marked(self, busy: bool) -> Subscriber
        ensures { result ≡ marked busy self }
    {
        Subscriber { busy, ..self }
    }

    // The identifier is issued to him, and he holds it.
    pub fn issued(self, identifier: Identifier) -> Subscriber
        ensures { result ≡ issued identifier self }
    {
        Subscriber {
            marks: self.marks.hold(identifier),
            last: identifier,
            ..self
        }
    }

    pub fn freed(self, identifier: Identifier) -> Subscriber
        ensures { result ≡ freed identifier self }
    {
        Subscriber {
            marks: self.marks.release(identifier),
            ..self
        }
    }
}

impl RetainedCall {
    pub fn runs(&self, time: u64) -> bool
        ensures { result ≡ runs time self.now }
    {
        time < self.until
    }

    // Whether its place is free at this time.
    pub fn has_run_out(&self, time: u64) -> bool
        ensures { result ≡ has_run_out time self.now }
    {
        !self.runs(time)
    }

    // Whether it is the caller's of this call identifier, and runs at this time.
    pub fn runs_as(&self, time: u64, caller: Identity, identifier: CallIdentifier) -> bool
        ensures { result ≡ runs_as time caller identifier self.now }
    {
        self.caller == caller && self.identifier == identifier && self.runs(time)
    }
}

impl Request {
    pub fn at_phase(self, phase: Phase) -> Request
        ensures { result ≡ at_phase phase self }
    {
        Request { phase, ..self }
    }

    pub fn recalled_until(self, deadline: u64) -> Request
        ensures { result ≡ recalled_until deadline self }
    {
        let deadlines = Deadlines {
            recall: deadline,
            ..self.deadlines
        };
        Request {
            phase: Phase::Recalled,
            deadlines,
            ..self
        }
    }

    pub fn served_until(self, deadline: u64) -> Request
        ensures { result ≡ served_until deadline self }
    {
        let deadlines = Deadlines {
            service: deadline,
            ..self.deadlines
        };
        Request { deadlines, ..self }
    }

    pub fn is_over(&self, time: u64) -> bool
        ensures { result ≡ is_over time self.now }
    {
        let deadlines = self.deadlines;
        deadlines.service <= time || self.phase == Phase::Recalled && deadlines.recall <= time
    }

    // Whether the time ends it.
    pub fn is_due(&self, time: u64) -> bool
        ensures { result ≡ is_due time self.now }
    {
        self.phase.can_end() && self.is_over(time)
    }

    // Whether a message with this key concerns it.
    pub fn has_key(&self, key: Key) -> bool
        ensures { result ≡ has_key key self.now }
    {
        self.key == key
    }

    // Whether it has not ended.
    pub fn is_living(&self) -> bool
        ensures { result ≡ is_living self.now }
    {
        self.phase.is_live()
    }

    // Whether it is the caller's of this identifier.
    pub fn is_named(&self, caller: Identity, identifier: Identifier) -> bool
        ensures { result ≡ is_named caller identifier self.now }
    {
        self.key.caller == caller && self.key.identifier == identifier
    }

    // Whether it is live, and the caller's call to this party, for this service, joins it.
    pub fn is_joined(&self, caller: Identity, called: Identity, service: Service) -> bool
        ensures { result ≡ is_joined caller called service self.now }
    {
        self.key.caller == caller
            && self.key.called == called
            && self.call.service == service
            && self.is_living()
    }

    pub fn is_parked_of(&self, caller: Identity) -> bool
        ensures { result ≡ is_parked_of caller self.now }
    {
        self.key.caller == caller && self.phase == Phase::Parked
    }

    // Whether it is a live one of the caller that the other office took, with a number above the
    // last.
    pub fn is_listed(&self, caller: Identity, last: u64) -> bool
        ensures { result ≡ is_listed caller last self.now }
    {
        self.key.caller == caller
            && self.is_living()
            && self.phase != Phase::Asked
            && last < self.number
    }
}

// Three retained calls of a caller may run.
impl Record for RetainedCall {
    ghost LIMIT = { 3 };

    const LIMIT: usize = 3;

    ghost owned = { λ x. x.caller };

    fn owner(&self) -> Identity {
        self.caller
    }
}

// Five requests of a caller may be live.
impl Record for Request {
    ghost LIMIT = { 5 };

    const LIMIT: usize = 5;

    ghost owned = { λ r. r.key.caller };

    fn owner(&self) -> Identity {
        self.key.caller
    }
}
