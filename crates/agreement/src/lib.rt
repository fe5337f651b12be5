// The agreement of two offices over two links.
#![tactic(auto)]

ghost use Rattle.agreement.specs.Agreement.{Kept};

// Whatever state calls lead to, the two offices agree there.
#[tactic(auto, using(crate::proofs::Agree::kept))]
pub fn agreement_kept()
    ensures { Kept }
{}
