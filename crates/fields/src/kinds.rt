// The kinds of numbers that are exchanged, each with its width.
ghost use Rattle.std.specs.Prelude.{ℕ, ◌<◌, ◌≤◌};
ghost use Rattle.std.proofs.Common.{lit<, lit≤};

// What a number says, and how many bits it has.
pub trait Kind {
    const WIDTH: u32;

    ghost WIDTH: { ℕ };

    ghost some: { 0 < WIDTH };

    // no number is wider than an identity
    ghost narrow: { WIDTH ≤ 48 };
}

// A subscriber or a line: a 24-bit SSI above a 24-bit extension.
pub struct Identity;

impl Kind for Identity {
    const WIDTH: u32 = 48;

    ghost WIDTH = { 48 };

    ghost some = { lit< tt };

    ghost narrow = { lit≤ tt };
}

// The short subscriber identity, the upper half of an identity.
pub struct Ssi;

impl Kind for Ssi {
    const WIDTH: u32 = 24;

    ghost WIDTH = { 24 };

    ghost some = { lit< tt };

    ghost narrow = { lit≤ tt };
}

// The address extension, the lower half of an identity.
pub struct Extension;

impl Kind for Extension {
    const WIDTH: u32 = 24;

    ghost WIDTH = { 24 };

    ghost some = { lit< tt };

    ghost narrow = { lit≤ tt };
}

// Tells a caller's requests apart; all eight values are in use.
pub struct Identifier;

impl Kind for Identifier {
    const WIDTH: u32 = 3;

    ghost WIDTH = { 3 };

    ghost some = { lit< tt };

    ghost narrow = { lit≤ tt };
}

// Tells a caller's calls apart.
pub struct CallIdentifier;

impl Kind for CallIdentifier {
    const WIDTH: u32 = 14;

    ghost WIDTH = { 14 };

    ghost some = { lit< tt };

    ghost narrow = { lit≤ tt };
}

// The call priority.
pub struct Priority;

impl Kind for Priority {
    const WIDTH: u32 = 4;

    ghost WIDTH = { 4 };

    ghost some = { lit< tt };

    ghost narrow = { lit≤ tt };
}

// The basic service.
pub struct Service;

impl Kind for Service {
    const WIDTH: u32 = 8;

    ghost WIDTH = { 8 };

    ghost some = { lit< tt };

    ghost narrow = { lit≤ tt };
}

// The area selection.
pub struct AreaSelection;

impl Kind for AreaSelection {
    const WIDTH: u32 = 4;

    ghost WIDTH = { 4 };

    ghost some = { lit< tt };

    ghost narrow = { lit≤ tt };
}
