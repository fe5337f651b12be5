// Links carry messages from one office to the other.
#![tactic(auto)]

ghost use Rattle.std.specs.Prelude.{◌≡◌, ℕ, ◌-◌, List, length, ◌==◌};
ghost use Rattle.link.specs.declared.message.Message.{Message as Sent};
ghost use Rattle.link.specs.Queue.{Bounded, send_answer, send_list, first_answer, take_list};

use fields::Refusal;

pub mod message;
pub mod places;
pub mod plain;
pub mod ring;

pub use message::{Kind, Message, NoCause, PlainKey, PlainKind, PlainMessage, PlainParty};
pub use places::Places;
pub use ring::Ring;

// The shelf keeps messages as records, in places that its maker hands over.
pub type Shelf = Ring<Vec<Message>>;

// A make of link says what waits and how many may; callers that speak of both say `queue_of`.
// Each function has its contract here, for any make.
pub trait Link {
    // The messages that wait, oldest first.
    ghost waiting: { Self → List Sent };

    // How many may wait; it never changes.
    ghost capacity: { Self → ℕ };

    // Puts the message last.
    fn send(&mut self, message: Message) -> Result<(), Refusal>
        ensures answer { result ≡ send_answer (capacity self.old) (waiting self.old) }
        ensures list { waiting self.new ≡ send_list (capacity self.old) (waiting self.old) message }
        ensures room { capacity self.new ≡ capacity self.old };

    // The oldest message.
    fn first(&self) -> Result<Message, Refusal>
        ensures { result ≡ first_answer (waiting self.now) };

    // Removes the oldest message.
    fn take(&mut self) -> Result<Message, Refusal>
        ensures answer { result ≡ first_answer (waiting self.old) }
        ensures list { waiting self.new ≡ take_list (waiting self.old) }
        ensures room { capacity self.new ≡ capacity self.old };

    // How many more may wait.
    fn free(&self) -> usize
        ensures { result ≡ capacity self.now - length (waiting self.now) };

    ghost bounded: { (x : Self) → Bounded (capacity x) (waiting x) };
}

// Whether nothing waits, on a link of any make; none is ever over its capacity.
pub fn is_empty<L: Link>(link: &L) -> bool
    ensures answer { result ≡ (length (L.waiting link.now) == 0) }
    ensures within { Bounded (L.capacity link.now) (L.waiting link.now) }
{
    link.first().is_err()
}
