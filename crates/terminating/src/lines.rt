// Lines known by their numbers, and their busy marks. Calls take plain numbers, so that every number
// is answered and no caller has to check one first.
ghost use Rattle.std.specs.Prelude.{◌≡◌};
ghost use Rattle.terminating.specs.Laws.{AsFound, Lawful, line_call};
ghost use Rattle.terminating.specs.Office.{with_line};
ghost use Rattle.terminating.specs.Steps.{known_line, marked_line, line_step};

use crate::office::{Line, Terminating};
use fields::{Identity, Refusal, busy_mark};
use record::{first, put_first};

impl Terminating {
    // The line of this identity.
    pub(crate) fn known_line(&self, identity: Identity) -> Result<Line, Refusal>
        ensures { result ≡ known_line self.now identity }
    {
        first(&self.lines, |line| line.identity == identity).ok_or(Refusal::UnknownParty)
    }

    // The line as it is to be marked.
    fn marked_line(&self, line: u64, mark: u64) -> Result<Line, Refusal>
        ensures { result ≡ marked_line self.now line mark }
    {
        let identity = Identity::try_from(line)?;
        let busy = busy_mark(mark)?;
        let line = self.known_line(identity)?;
        Ok(line.marked(busy))
    }

    // The line stands in the place of that of its identity.
    pub(crate) fn put_line(&mut self, line: Line)
        ensures { self.new ≡ with_line self.old line }
    {
        put_first(
            &mut self.lines,
            |other| other.identity == line.identity,
            line,
        );
    }

    // Marks the line busy (1) or free (0).
    #[tactic(auto, using(crate::proofs::Calls::lawful))]
    pub fn line(&mut self, line: u64, mark: u64) -> Result<(), Refusal>
        ensures step { (result, self.new) ≡ line_step self.old line mark }
        ensures as_found { AsFound result self.old self.new }
        ensures law { Lawful self.old (line_call line mark) self.new }
    {
        let line = self.marked_line(line, mark)?;
        self.put_line(line);
        Ok(())
    }
}
