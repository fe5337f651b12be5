// The ring: a link whose messages stand in places that are used in turn, the first again after the
// last.
ghost use Rattle.std.specs.Prelude.{◌≡◌, ◌+◌, ◌<◌, ◌≤◌, [], is_ok, IfOk, IfErr, OnOk, OnErr};
ghost use Rattle.fields.specs.declared.refusal.Refusal.TheVariants.{SettingNotAllowed};
ghost use Rattle.link.specs.Bounds.{ring-bounded};
ghost use Rattle.link.specs.Queue.{allowed, send_answer, send_list, first_answer, take_list};
ghost use Rattle.link.specs.Ring.{wrap, Whole};

use crate::places::Places;
use crate::{Link, Message};
use fields::{HandedBack, Refusal};

// Place i of so many, counted on past the last. With a remainder a shelf takes four tenths longer.
pub fn wrapped(size: usize, i: usize) -> usize
    ensures { result ≡ wrap size i }
{
    if i >= size { i - size } else { i }
}

// The messages that wait stand in `count` places from `head` on. It has no `==`: where they stand
// says nothing of the link.
#[derive(Debug, Drop)]
pub struct Ring<P: Places> {
    places: P,
    head: usize,
    count: usize,
    ghost within: { head < P.size places },
    ghost held: { count ≤ P.size places },
    ghost few: { P.size places ≤ 4096 },
    ghost whole: { Whole (P.size places) (P.held places) head count },
}

impl<P: Places> Ring<P> {
    ghost use Rattle.link.specs.Rings.{waiting_on};

    // As many messages may wait as there are places, which have to be 1 to 4,096.
    pub fn new(places: P) -> Result<Ring<P>, HandedBack<P>>
        ensures test { is_ok result ≡ allowed (P.size places) }
        ensures made { IfOk result (λ r. (r.places ≡ places) × (waiting_on r ≡ [])) }
        ensures handed_back { IfErr result (λ back. (back.refusal ≡ SettingNotAllowed) × (back.given ≡ places)) }
    {
        if !(1..=4096).contains(&places.size()) {
            return Err(HandedBack {
                refusal: Refusal::SettingNotAllowed,
                given: places,
            });
        }
        Ok(Ring {
            places,
            head: 0,
            count: 0,
        })
    }

    // Ends the ring and gives its places back as they are.
    pub fn into_places(self) -> P
        ensures { result ≡ self.places }
    {
        let Ring { places, .. } = self;
        places
    }

    // The place so many after the oldest message's.
    fn place(&self, n: usize) -> usize
        requires { n ≤ P.size self.now.places }
        ensures { result ≡ wrap (P.size self.now.places) (self.now.head + n) }
    {
        wrapped(self.places.size(), self.head + n)
    }
}

impl<P: Places> Link for Ring<P> {
    ghost use Rattle.link.specs.Rings.{waiting_on};

    ghost waiting = { λ r. waiting_on r };

    ghost capacity = { λ r. P.size r.places };

    ghost bounded = { λ r. ring-bounded _ _ _ _ r.within r.held r.few };

    fn send(&mut self, message: Message) -> Result<(), Refusal>
        ensures answer { result ≡ send_answer (P.size self.old.places) (waiting_on self.old) }
        ensures list { waiting_on self.new ≡ send_list (P.size self.old.places) (waiting_on self.old) message }
        ensures room { P.size self.new.places ≡ P.size self.old.places }

        // The message is put in the place after the last that waits, or nothing changes.
        ensures put { OnOk result (P.put_gives self.old.places (wrap (P.size self.old.places) (self.old.head + self.old.count)) message self.new.places) }
        ensures kept { OnErr result (self.new.places ≡ self.old.places) }
    {
        if self.free() == 0 {
            return Err(Refusal::LinkFull);
        }
        let end = self.place(self.count);
        self.places.put(end, message);
        self.count += 1;
        Ok(())
    }

    fn first(&self) -> Result<Message, Refusal> {
        if self.count == 0 {
            return Err(Refusal::NothingThere);
        }
        Ok(self.places.get(self.head))
    }

    fn take(&mut self) -> Result<Message, Refusal>
        ensures answer { result ≡ first_answer (waiting_on self.old) }
        ensures list { waiting_on self.new ≡ take_list (waiting_on self.old) }
        ensures room { P.size self.new.places ≡ P.size self.old.places }
        ensures kept { self.new.places ≡ self.old.places }
    {
        let oldest = self.first()?;
        self.head = self.place(1);
        self.count -= 1;
        Ok(oldest)
    }

    fn free(&self) -> usize {
        self.places.size() - self.count
    }
}
