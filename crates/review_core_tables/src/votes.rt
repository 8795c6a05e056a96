//! The votes of a change in the making.
ghost use Rattle.std.specs.{BTreeMap.is_at, List.list_any, Ordering.int_eq};
ghost use Rattle.std.specs.Prelude.{◌≡◌, ◌==◌, option_copied, ◌&&◌, ℕ, pos, true, false, List, IfOk, IsSome, OnOk, if◌then◌else◌};
ghost use Rattle.review_table.specs.Edited.{edited_row};
ghost use Rattle.review_core_rules.specs.{Change.given_or, EditedRows.edited_vote, Seen.value_of, Seen.vote_cmp};
ghost use Rattle.review_core_rules.specs.declared.rows.VoteKey.{VoteKey};
ghost use Rattle.review_core_tables.specs.{Tables.put_in, inner.Words.is_of};

use review_core_rules::{Vote, VoteKey};
use review_table::{Edited, Key};
use review_words::{AccountNo, Given, PatchNo};
use std::alloc::{AllocError, Global};

/// Whether a vote has a value; none has 0.
fn has_value(vote: Option<&Vote>, value: i8) -> bool
    ensures { result ≡ int_eq (value_of (option_copied vote.entry)) value }
{
    match vote {
        Some(vote) => vote.get() == value,
        None => value == 0,
    }
}

/// Gives the votes of a review, each where that isn't its value already; 0 takes a vote away.
pub fn give(
    votes: &mut Edited<'_, VoteKey, Vote>,
    patch: PatchNo,
    account: AccountNo,
    labels: &[Given],
) -> Result<(), AllocError>
    ensures table { votes.new.rows ≡ votes.old.rows }
    ensures votes { OnOk result ((n : ℕ) (l : List ℕ) (a : ℕ) → edited_vote votes.new n l a ≡ (if (patch == n) && (account == a) then given_or labels.now l (edited_vote votes.old n l a) else edited_vote votes.old n l a)) }
{
    for given in labels {
        let label = given.label.copy()?;
        let key = VoteKey {
            patch,
            label,
            account,
        };
        if has_value(votes.get(&key), given.value) {
            continue;
        }
        votes.set(key, Vote::from_value(given.value))?;
    }
    Ok(())
}

fn is_of(key: &VoteKey, patch: PatchNo, account: AccountNo) -> bool
    ensures { result ≡ is_of patch account key.now }
{
    patch == key.patch && account == key.account
}

/// The keys of the votes of an account on a patch set.
fn keys_of(
    alloc: Global,
    votes: &Edited<'_, VoteKey, Vote>,
    patch: PatchNo,
    account: AccountNo,
) -> Result<Vec<VoteKey>, AllocError>
    ensures all { IfOk result (λ keys. (q : VoteKey) → is_of patch account q ≡ true → IsSome (edited_row vote_cmp votes.now q) → list_any (is_at (vote_cmp q)) keys.items ≡ true) }
    ensures only { IfOk result (λ keys. (q : VoteKey) → is_of patch account q ≡ false → list_any (is_at (vote_cmp q)) keys.items ≡ false) }
{
    let mut keys = Vec::new(alloc);
    let all = votes.keys(alloc)?;
    for key in &all {
        if is_of(key, patch, account) {
            keys.push(Key::copy(*key)?)?;
        }
    }
    Ok(keys)
}

/// Takes away the votes of an account on a patch set.
pub fn drop_votes(
    alloc: Global,
    votes: &mut Edited<'_, VoteKey, Vote>,
    patch: PatchNo,
    account: AccountNo,
) -> Result<(), AllocError>
    ensures table { votes.new.rows ≡ votes.old.rows }
    ensures votes { OnOk result ((n : ℕ) (l : List ℕ) (a : ℕ) → edited_vote votes.new n l a ≡ (if (patch == n) && (account == a) then pos 0 else edited_vote votes.old n l a)) }
{
    let keys = keys_of(alloc, votes, patch, account)?;
    votes.take_away(keys)
}

/// Puts votes, one after the other.
pub fn put_all(
    votes: &mut Edited<'_, VoteKey, Vote>,
    rows: Vec<(VoteKey, Vote)>,
) -> Result<(), AllocError>
    ensures table { votes.new.rows ≡ votes.old.rows }
    ensures votes { OnOk result ((q : VoteKey) → edited_row vote_cmp votes.new q ≡ put_in vote_cmp rows.items q (edited_row vote_cmp votes.old q)) }
{
    for (key, vote) in rows {
        votes.set(key, Some(vote))?;
    }
    Ok(())
}
