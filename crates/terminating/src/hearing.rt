// Hearing: the oldest message from the other office is taken up.
ghost use Rattle.std.specs.Prelude.{◌≡◌};
ghost use Rattle.terminating.specs.Laws.{AsFound, Lawful, hear_call};
ghost use Rattle.link.specs.Links.{queue_of};
ghost use Rattle.link.specs.Queue.{Queue};
ghost use Rattle.terminating.specs.Office.{Office};
ghost use Rattle.terminating.specs.Hearing.{reply_answer, replied, hear_step};

use crate::office::Terminating;
use fields::{Key, Refusal};
use link::{Kind, Link, Message};

// Sends the reply, if there is one.
fn answer<B: Link>(back: &mut B, key: Key, reply: Option<Kind>) -> Result<(), Refusal>
    ensures answer { result ≡ reply_answer (queue_of B.Link back.old) reply }
    ensures back { queue_of B.Link back.new ≡ replied (queue_of B.Link back.old) key reply }
{
    match reply {
        Some(kind) => back.send(Message { kind, key }),
        None => Ok(()),
    }
}

impl Terminating {
    // Takes up the oldest message on the link out. Where a reply is due and the link back is full,
    // the message stays.
    #[tactic(auto, using(crate::proofs::Calls::lawful))]
    pub fn hear<O: Link, B: Link>(&mut self, out: &mut O, back: &mut B) -> Result<(), Refusal>
        ensures step { (result, self.new, queue_of O.Link out.new, queue_of B.Link back.new) ≡ hear_step self.old (queue_of O.Link out.old) (queue_of B.Link back.old) }
        ensures as_found { AsFound {World = Office × Queue × Queue} result (self.old, queue_of O.Link out.old, queue_of B.Link back.old) (self.new, queue_of O.Link out.new, queue_of B.Link back.new) }
        ensures law { Lawful self.old (hear_call (queue_of O.Link out.old) (queue_of B.Link back.old)) self.new }
    {
        let message = out.first()?;
        let plan = self.plan(message);
        answer(back, message.key, plan.reply)?;
        self.apply(message.key, plan.change);
        let _ = out.take();
        Ok(())
    }
}
