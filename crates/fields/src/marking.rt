// Busy marks as they are given: a caller's and a line's alike.
ghost use Rattle.std.specs.Prelude.{◌≡◌};
ghost use Rattle.fields.specs.Marking.{mark_of};

use crate::refusal::Refusal;

// Whether the mark says busy: 1 does, and 0 says free. A function, since no conversion to the
// language's own `bool` can be added here.
pub fn busy_mark(mark: u64) -> Result<bool, Refusal>
    ensures { result ≡ mark_of mark }
{
    match mark {
        0 => Ok(false),
        1 => Ok(true),
        _ => Err(Refusal::OutsideField),
    }
}
