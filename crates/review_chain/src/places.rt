//! The places that changes get in a branch.
ghost use Rattle.std.specs.Prelude.{◌≡◌, ◌+◌, ◌<◌, ◌^◌, ℕ, map, length, IfOk};
ghost use Rattle.review_chain.specs.Places.{places_from};

use review_words::ChangeNo;
use std::alloc::{AllocError, Global};

/// The changes in the order given, each with its place in the branch: the places after the last one that is taken, which is 0 where none is.
/// Places past 2^32 - 1, which no branch has, are not told apart. An error is want of memory.
pub fn joins(
    alloc: Global,
    changes: &[ChangeNo],
    last_place: u32,
) -> Result<Vec<(ChangeNo, u32)>, AllocError>
    ensures order { IfOk result (λ joined. map (λ j. j.0) joined.items ≡ changes.now) }
    ensures places { IfOk result (λ joined. last_place + length changes.now < 2 ^ 32 → joined.items ≡ places_from (last_place + 1) changes.now) }
{
    let mut joined = Vec::new(alloc);
    let mut place = last_place;
    for change in changes {
        place = place.saturating_add(1);
        joined.push((*change, place))?;
    }
    Ok(joined)
}
