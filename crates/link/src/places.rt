// Memory in which messages stand in places, numbered from 0.
ghost use Rattle.std.specs.Prelude.{◌≡◌, ℕ, ◌<◌, Option, Some, IsSome, vec_len, slice_get, slice_set};
ghost use Rattle.link.specs.declared.message.Message.{Message as Sent};
ghost use Rattle.link.specs.Places.{PutsAt};

use crate::Message;

pub trait Places {
    // How many places there are.
    ghost size: { Self → ℕ };

    // The message in a place, if one stands there.
    ghost held: { Self → ℕ → Option Sent };

    // What putting a message in a place leaves of the memory.
    ghost put_gives: { Self → ℕ → Sent → Self → Type 0 };

    fn size(&self) -> usize
        ensures { result ≡ size self.now };

    fn get(&self, place: usize) -> Message
        requires within { place < size self.now }
        requires there { IsSome (held self.now place) }
        ensures { held self.now place ≡ Some result };

    fn put(&mut self, place: usize, message: Message)
        requires { place < size self.old }
        ensures size { size self.new ≡ size self.old }
        ensures held { PutsAt (held self.old) place message (held self.new) }
        ensures memory { put_gives self.old place message self.new };
}

impl Places for Vec<Message> {
    ghost size = { λ v. vec_len v };

    ghost held = { λ v k. slice_get v.items k };

    ghost put_gives = { λ old place message new. new.items ≡ slice_set old.items place message };

    fn size(&self) -> usize {
        self.len()
    }

    fn get(&self, place: usize) -> Message {
        self[place]
    }

    fn put(&mut self, place: usize, message: Message) {
        self[place] = message;
    }
}
