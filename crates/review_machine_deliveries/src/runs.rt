//! Deliveries in a row.
ghost use Rattle.std.specs.Prelude.{◌≡◌, ◌≤◌, ◌<◌, [], MatchResult, IfOk, IfErr, OnErr, take, length};
ghost use Rattle.{std.specs.Vec.vec_capacity, review_machine_deliveries.specs.Delivered.WasRun};

use crate::deliveries::deliver;
use crate::rules::Rules;
use review_machine_rows::Shelf;
use review_words::{Delivery, Reply};
use std::alloc::{AllocError, Global};

/// A run that found no memory for its list of replies. The deliveries that have no reply, which are some, weren't begun.
#[derive(Drop)]
pub struct Stopped {
    pub replies: Vec<Reply>,
}

/// Room for as many replies. An error where some are to come and there is no memory for them.
fn room_for(alloc: Global, count: usize) -> Result<Vec<Reply>, AllocError>
    ensures items { IfOk result (λ v. v.items ≡ []) }
    ensures capacity { IfOk result (λ v. count ≤ vec_capacity v) }
    ensures some { OnErr result (0 < count) }
{
    if count == 0 {
        return Ok(Vec::new(alloc));
    }
    Ok(Vec::with_capacity(alloc, count)?)
}

/// Takes deliveries in order. Whatever comes, repeated, lost or reordered, tables and replies are those of the run in which each request
/// stands once, at the first arrival that is taken while its epoch is open: from the tables of any history, each reply is the right one after the
/// deliveries before it, and the tables at the end are those of the history with each taken first arrival of an open epoch added, its repeats
/// deleted; a repeat is told the first answer, or later that its epoch is closed, and changes nothing. Where there is no memory for the list of replies it stops before the first
/// delivery, and only there.
///
/// Of the history that it leaves: each change joined its branch at most once and has its place there; it stands on a base of the branch or
/// on a change that joined before it; and just before its submit it was open, not in work in progress, and no requirement was unsatisfied. The
/// line of each project ends; no effective file of one has lost a label or a value; and each vote that stands is on a label of its project's
/// effective file.
///
/// Premises: the store returned what was written to it; once a fault has shut it, nothing is said of tables. On any tables
/// whatever each step leaves them, or stores its request beside the others, of which an accepted CloseEpoch gives up those of lower epochs.
pub fn run<S: Shelf, R: Rules>(
    alloc: Global,
    shelf: &mut S,
    rules: &mut R,
    deliveries: &[Delivery],
) -> Result<Vec<Reply>, Stopped>
    ensures ran { MatchResult result
        (λ replies. WasRun deliveries.now replies.items (S.state shelf.old) (S.state shelf.new))
        (λ stopped. WasRun (take (length stopped.replies.items) deliveries.now) stopped.replies.items (S.state shelf.old) (S.state shelf.new)) }
    ensures stopped { IfErr result (λ stopped. (stopped.replies.items ≡ []) × (0 < length deliveries.now)) }
{
    let Ok(mut replies) = room_for(alloc, deliveries.len()) else {
        return Err(Stopped {
            replies: Vec::new(alloc),
        });
    };
    for delivery in deliveries {
        let reply = deliver(alloc, shelf, rules, delivery);
        replies.push(reply).unwrap();
    }
    Ok(replies)
}
