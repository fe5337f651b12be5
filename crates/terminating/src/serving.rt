// Serving: a free line is offered to the earliest monitor that waits for it.
ghost use Rattle.std.specs.Prelude.{◌≡◌};
ghost use Rattle.terminating.specs.Laws.{AsFound, Lawful, serve_call};
ghost use Rattle.link.specs.Links.{queue_of};
ghost use Rattle.link.specs.Queue.{Queue};
ghost use Rattle.terminating.specs.Office.{Office};
ghost use Rattle.terminating.specs.Steps.{is_held, offer_to, next_served, serve_step};

use crate::office::{Line, Monitor, Stage, Terminating};
use fields::{Identity, Refusal};
use link::{Kind, Link, Message};
use record::{first, put_first};

impl Terminating {
    // Whether a monitor of the line is offered or rings.
    fn is_held(&self, line: Line) -> bool
        ensures { result ≡ is_held self.now line }
    {
        first(&self.monitors, |monitor| monitor.holds(line.identity)).is_some()
    }

    // The monitor that the line is to be offered to.
    fn offer_to(&self, line: Line) -> Result<Monitor, Refusal>
        ensures { result ≡ offer_to self.now line }
    {
        if line.busy {
            return Err(Refusal::PartyBusy);
        }
        if self.is_held(line) {
            return Err(Refusal::NothingThere);
        }
        let earliest = first(&self.monitors, |monitor| monitor.waits_for(line.identity));
        earliest.ok_or(Refusal::NothingThere)
    }

    fn next_served(&self, line: u64) -> Result<Monitor, Refusal>
        ensures { result ≡ next_served self.now line }
    {
        let identity = Identity::try_from(line)?;
        let line = self.known_line(identity)?;
        self.offer_to(line)
    }

    // Offers the line to the earliest monitor that waits for it, and sends FREE.
    #[tactic(auto, using(crate::proofs::Calls::lawful))]
    pub fn serve<B: Link>(&mut self, line: u64, back: &mut B) -> Result<(), Refusal>
        ensures step { (result, self.new, queue_of B.Link back.new) ≡ serve_step self.old (queue_of B.Link back.old) line }
        ensures as_found { AsFound {World = Office × Queue} result (self.old, queue_of B.Link back.old) (self.new, queue_of B.Link back.new) }
        ensures law { Lawful self.old (serve_call (queue_of B.Link back.old) line) self.new }
    {
        let next = self.next_served(line)?;
        back.send(Message {
            kind: Kind::Free,
            key: next.key,
        })?;
        let offered = next.at_stage(Stage::Offered);
        let waits = |monitor: &Monitor| monitor.waits_for(next.key.called);
        put_first(&mut self.monitors, waits, offered);
        Ok(())
    }
}
