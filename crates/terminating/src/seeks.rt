// The tests by which monitors are sought, and what becomes of lines and monitors.
ghost use Rattle.std.specs.Prelude.{◌≡◌};
ghost use Rattle.terminating.specs.Office.{is_waiting, is_engaged, is_ringing, at_stage, marked};

use crate::office::{Line, Monitor, Stage};
use fields::Identity;
use record::Record;

// `marked` and `at_stage` change one field of a copy: a trait for both would be longer.
impl Line {
    pub(crate) fn marked(self, busy: bool) -> Line
        ensures { result ≡ marked busy self }
    {
        Line { busy, ..self }
    }
}

impl Monitor {
    pub(crate) fn at_stage(self, stage: Stage) -> Monitor
        ensures { result ≡ at_stage stage self }
    {
        Monitor { stage, ..self }
    }

    // Whether it waits for this line.
    pub(crate) fn waits_for(&self, line: Identity) -> bool
        ensures { result ≡ is_waiting line self.now }
    {
        self.key.called == line && self.stage == Stage::Waiting
    }

    // Whether it holds this line: one monitor of a line at most does.
    pub(crate) fn holds(&self, line: Identity) -> bool
        ensures { result ≡ is_engaged line self.now }
    {
        self.key.called == line && matches!(self.stage, Stage::Offered | Stage::Ringing)
    }

    // Whether it rings at this line.
    pub(crate) fn rings_at(&self, line: Identity) -> bool
        ensures { result ≡ is_ringing line self.now }
    {
        self.key.called == line && self.stage == Stage::Ringing
    }
}

// Five monitors may stand for a called party.
impl Record for Monitor {
    ghost LIMIT = { 5 };

    const LIMIT: usize = 5;

    ghost owned = { λ m. m.key.called };

    fn owner(&self) -> Identity {
        self.key.called
    }
}
