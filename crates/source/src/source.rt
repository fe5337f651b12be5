// A source of elements, one after the other.
ghost use Rattle.std.specs.Prelude.{◌≡◌, ◌<◌};
ghost use Rattle.source.specs.Hearing.{Hearing, element_heard};

use bits::ElementName;
use element::coding::Element;

pub trait Source: Sized + Drop {
    type Fault;

    ghost hearing: { Hearing Self Self.Fault };

    // The code of the element that begins here, and what stands after it.
    fn number(&self, element: ElementName, width: usize) -> Result<(u64, Self), Self::Fault>
        requires { width < 64 }
        ensures { result ≡ hearing.number self.now element width };

    // What is wrong where that code is not listed.
    fn unlisted(&self, element: ElementName) -> Self::Fault
        ensures { result ≡ hearing.unlisted self.now element };

    // Whether the optional element follows, and where it begins.
    fn present(&self) -> Result<(bool, Self), Self::Fault>
        ensures { result ≡ hearing.present self.now };

    // Whether the answer to REQUEST that stands here is a rejection.
    fn rejects(&self) -> bool
        ensures { result ≡ hearing.rejects self.now };
}

// The element that begins here, and what stands after it.
pub fn read_element<S: Source, E: Element>(
    source: S,
    element: ElementName,
) -> Result<(E, S), S::Fault>
    ensures { result ≡ element_heard S.Source.hearing element E.Element.coding source }
{
    let (code, rest) = source.number(element, E::width())?;
    let value = E::from_code(code).ok_or_else(|| source.unlisted(element))?;
    Ok((value, rest))
}
