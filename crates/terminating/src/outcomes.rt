// The outcome of a call that rang at a line: a plain number, so that every number is answered.
ghost use Rattle.std.specs.Prelude.{◌≡◌};
ghost use Rattle.terminating.specs.Laws.{AsFound, Lawful, outcome_call};
ghost use Rattle.link.specs.Links.{queue_of};
ghost use Rattle.link.specs.Queue.{Queue};
ghost use Rattle.terminating.specs.Office.{Office};
ghost use Rattle.terminating.specs.Steps.{outcome_of, told_as, ending_of, marked_busy, ended, outcome_step};

use crate::office::{Line, Monitor, Stage, Terminating};
use fields::{Identity, Refusal};
use link::{Kind, Link, Message};
use record::{erase_first, first, put_first};

#[derive(Clone, Copy, PartialEq, Eq, Debug)]
pub enum Outcome {
    // the line took the call
    Connected,
    // the line turned out to be busy
    Busy,
    // the call cannot be set up
    Failed,
}

// A monitor that rang at the line, and how that went.
#[derive(Clone, Copy, PartialEq, Eq, Debug)]
pub struct Ending {
    pub line: Line,
    pub monitor: Monitor,
    pub outcome: Outcome,
}

impl TryFrom<u64> for Outcome {
    type Error = Refusal;

    ghost try_from_gives = { λ number r. r ≡ outcome_of number };

    fn try_from(number: u64) -> Result<Outcome, Refusal> {
        match number {
            1 => Ok(Outcome::Connected),
            2 => Ok(Outcome::Busy),
            3 => Ok(Outcome::Failed),
            _ => Err(Refusal::OutsideField),
        }
    }
}

// The message that tells of it.
impl From<Outcome> for Kind {
    ghost from_gives = { λ outcome kind. kind ≡ told_as outcome };

    fn from(outcome: Outcome) -> Kind {
        match outcome {
            Outcome::Connected => Kind::Connected,
            Outcome::Busy => Kind::BusyAgain,
            Outcome::Failed => Kind::Failed,
        }
    }
}

impl Terminating {
    fn ending(&self, line: u64, number: u64) -> Result<Ending, Refusal>
        ensures { result ≡ ending_of self.now line number }
    {
        let identity = Identity::try_from(line)?;
        let outcome = Outcome::try_from(number)?;
        let line = self.known_line(identity)?;
        let ringing = first(&self.monitors, |monitor| monitor.rings_at(line.identity));
        let monitor = ringing.ok_or(Refusal::NothingThere)?;
        Ok(Ending {
            line,
            monitor,
            outcome,
        })
    }

    fn mark_busy(&mut self, line: Line)
        ensures { self.new ≡ marked_busy self.old line }
    {
        self.put_line(line.marked(true));
    }

    // A monitor that goes back to waiting keeps its place. What each outcome does stands beside it,
    // since closures would each have to borrow the office.
    fn end(&mut self, ending: Ending)
        ensures { self.new ≡ ended self.old ending.line ending.monitor ending.outcome }
    {
        let ringing = |monitor: &Monitor| monitor.rings_at(ending.line.identity);
        match ending.outcome {
            Outcome::Connected => {
                erase_first(&mut self.monitors, ringing);
                self.mark_busy(ending.line);
            }
            Outcome::Busy => {
                let waiting = ending.monitor.at_stage(Stage::Waiting);
                put_first(&mut self.monitors, ringing, waiting);
                self.mark_busy(ending.line);
            }
            Outcome::Failed => erase_first(&mut self.monitors, ringing),
        }
    }

    // Takes the outcome of the call that rings at the line, and sends word of it: connected (1),
    // busy (2) or failed (3). The first two mark the line busy.
    #[tactic(auto, using(crate::proofs::Calls::lawful))]
    pub fn outcome<B: Link>(&mut self, line: u64, number: u64, back: &mut B) -> Result<(), Refusal>
        ensures step { (result, self.new, queue_of B.Link back.new) ≡ outcome_step self.old (queue_of B.Link back.old) line number }
        ensures as_found { AsFound {World = Office × Queue} result (self.old, queue_of B.Link back.old) (self.new, queue_of B.Link back.new) }
        ensures law { Lawful self.old (outcome_call (queue_of B.Link back.old) line number) self.new }
    {
        let ending = self.ending(line, number)?;
        back.send(Message {
            kind: Kind::from(ending.outcome),
            key: ending.monitor.key,
        })?;
        self.end(ending);
        Ok(())
    }
}
