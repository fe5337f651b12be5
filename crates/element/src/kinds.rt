// A kind of number that stands in PDUs alone.
ghost use Rattle.std.proofs.Common.{lit<, lit≤};

use fields::Kind;

// The restriction of identities that was invoked for the call, as its two bits.
pub struct ClirColr;

impl Kind for ClirColr {
    const WIDTH: u32 = 2;

    ghost WIDTH = { 2 };

    ghost some = { lit< tt };

    ghost narrow = { lit≤ tt };
}
