// The identifiers that a caller holds.
ghost use Rattle.std.specs.Prelude.{◌^◌, ◌<◌};

// Eight marks: bit i is set while identifier i is held.
#[derive(Clone, Copy, PartialEq, Eq, Debug)]
pub struct Marks {
    pub bits: u8,
    ghost fits: { bits < 2 ^ 8 },
}
