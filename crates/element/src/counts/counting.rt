// A count is its own code.
ghost use Rattle.std.specs.Prelude.{◌≡◌};
ghost use Rattle.element.specs.Counts.{up_to_five};

use crate::coding::Element;
use crate::counts::UpToFive;

impl Element for UpToFive {
    ghost coding = { up_to_five };

    fn width() -> usize {
        3
    }

    fn from_code(code: u64) -> Option<UpToFive> {
        if code <= 5 {
            Some(UpToFive {
                count: code as usize,
            })
        } else {
            None
        }
    }

    fn code(&self) -> u64 {
        self.count as u64
    }
}
