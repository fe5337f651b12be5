// How many requests: a caller has five at most.
ghost use Rattle.std.specs.Prelude.{◌≤◌};

pub mod counting;

#[derive(Clone, Copy, PartialEq, Eq, Debug)]
pub struct UpToFive {
    pub count: usize,
    ghost few: { count ≤ 5 },
}
