//! Deliveries, over any shelf.
ghost use Rattle.std.specs.Prelude.{◌≡◌, ◌<◌, [], MatchResult, IfErr, take, length};
ghost use Rattle.review_machine_deliveries.specs.Delivered.{IsDelivered, WasRun};

use crate::rules::DeskRules;
use review_machine_deliveries::Stopped;
use review_machine_rows::Shelf;
use review_words::{Delivery, Reply};
use std::alloc::Global;

/// Takes one delivery by the desk's own rules, as [`review_machine_deliveries::deliver`] says it: whatever came before, a request acts at most once, and
/// its reply is right after the history whose tables the shelf has.
pub fn deliver<S: Shelf>(alloc: Global, shelf: &mut S, delivery: &Delivery) -> Reply
    ensures { IsDelivered delivery.now result (S.state shelf.old) (S.state shelf.new) }
{
    review_machine_deliveries::deliver(alloc, shelf, &mut DeskRules::new(alloc), delivery)
}

/// Takes deliveries in order by the desk's own rules, as [`review_machine_deliveries::run`] says it: repeated, lost or reordered, each request acts at
/// most once. Where there is no memory for the list of replies it stops before the first delivery, and only there.
pub fn run<S: Shelf>(
    alloc: Global,
    shelf: &mut S,
    deliveries: &[Delivery],
) -> Result<Vec<Reply>, Stopped>
    ensures ran { MatchResult result
        (λ replies. WasRun deliveries.now replies.items (S.state shelf.old) (S.state shelf.new))
        (λ stopped. WasRun (take (length stopped.replies.items) deliveries.now) stopped.replies.items (S.state shelf.old) (S.state shelf.new)) }
    ensures stopped { IfErr result (λ stopped. (stopped.replies.items ≡ []) × (0 < length deliveries.now)) }
{
    review_machine_deliveries::run(alloc, shelf, &mut DeskRules::new(alloc), deliveries)
}
