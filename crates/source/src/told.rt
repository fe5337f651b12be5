// What a PDU tells, element by element.
ghost use Rattle.std.specs.Prelude.{◌^◌, ◌<◌, ◌≤◌};

use arrayvec::ArrayVec;
use bits::ElementName;

// The code of an element, in so many bits.
#[derive(Clone, Copy)]
pub struct Code {
    pub element: ElementName,
    pub width: usize,
    pub value: u64,
    ghost fits: { value < 2 ^ width },
    ghost some: { 0 < width },
    ghost room: { width ≤ 32 },
}

#[derive(Clone, Copy)]
pub enum Told {
    Element(Code),
    // whether the optional element follows
    Present(bool),
}

impl Default for Told {
    fn default() -> Told {
        Told::Present(false)
    }
}

// The longest PDU tells 20 elements.
pub type ToldList = ArrayVec<Told, 20>;
