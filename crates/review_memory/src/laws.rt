//! Laws of the turns of shelves, as contracts of calls that do nothing.
ghost use Rattle.review_memory.specs.Faults.{OnlyThatFails, IsPastFromThen};

/// Of the calls on a faulty shelf the k-th is the one that is made to fail, and no other; with 0 none is. Each call takes its turn one
/// further.
#[tactic(auto, using(crate::proofs::Turns::only_that))]
pub fn only_that_fails()
    ensures { OnlyThatFails }
{}

/// A shutting shelf is shut from its k-th commit on, and not before: each commit takes its turn one further.
#[tactic(auto, using(crate::proofs::Turns::past_from_then))]
pub fn shut_from_then()
    ensures { IsPastFromThen }
{}
