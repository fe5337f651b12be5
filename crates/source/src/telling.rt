// Telling an element by its name and its code.
ghost use Rattle.std.specs.Prelude.{◌≡◌, [], ◌∷◌, ◌++◌, List};
ghost use Rattle.source.specs.declared.told.Told.{Told as Heard};
ghost use Rattle.source.specs.declared.told.Told.TheVariants.{Present};
ghost use Rattle.source.specs.Forms.{code_of, element-tell};
ghost use Rattle.source.specs.Listening.{list_after, list-more};
ghost use Rattle.source.specs.Telling.{with_told};

use crate::told::{Code, Told, ToldList};
use bits::ElementName;
use element::coding::Element;

// What elements are told to, one after the other: a list keeps them, and their bits can be written at once.
pub trait Listener {
    // What stands there after more is told.
    ghost after: { Self → List Heard → Self };

    fn hear(&mut self, one: Told)
        ensures { self.new ≡ after self.old (one ∷ []) };

    // one after the other
    ghost more: { (before : Self) (xs ys : List Heard) → after (after before xs) ys ≡ after before (xs ++ ys) };
}

// What does not fit is dropped.
impl Listener for ToldList {
    ghost after = { list_after };

    ghost more = { list-more };

    fn hear(&mut self, one: Told) {
        add(self, one);
    }
}

#[tactic(auto, using(crate::proofs::TellingLaws::told_pushed))]
fn add(told: &mut ToldList, one: Told)
    ensures { told.new.items ≡ with_told told.old.items (one ∷ []) }
{
    let _ = told.try_push(one);
}

fn code_of<E: Element>(element: ElementName, value: &E) -> Code
    ensures { result ≡ code_of element E.Element.coding value.now }
{
    Code {
        element,
        width: E::width(),
        value: value.code(),
    }
}

// Tells an element after what was told.
pub fn tell<L: Listener, E: Element>(told: &mut L, element: ElementName, value: &E)
    ensures { told.new ≡ L.after told.old (element-tell element E.Element.coding value.now) }
{
    told.hear(Told::Element(code_of(element, value)));
}

pub fn tell_present<L: Listener>(told: &mut L, present: bool)
    ensures { told.new ≡ L.after told.old (Present present ∷ []) }
{
    told.hear(Told::Present(present));
}
