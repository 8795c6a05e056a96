//! Whether rows fit together.
ghost use Rattle.std.specs.{List.list_all, Option.option_map_or};
ghost use Rattle.std.specs.Prelude.{◌≡◌, ◌==◌, ◌&&◌, ◌||◌, not, true, nat_le, length, is_some, IfOk};
ghost use Rattle.review_names.specs.Forms.{is_within, most_comments, most_patches};
ghost use Rattle.review_table.specs.Rows.{rows_of};
ghost use Rattle.review_core_rules.specs.{Seen.of_account, Sound.are_in_order, Votes.voted};
ghost use Rattle.review_core.specs.Tests.{are_counted, is_called_in_place, is_in_place};
ghost use Rattle.review_core.specs.inner.Words.{is_earlier};

use review_core_rules::{AttentionEntry, Comment, PatchRow, Vote, VoteKey};
use review_core_tables::is_eligible;
use review_table::Table;
use review_words::{AccountNo, Role};
use std::alloc::{AllocError, Global};

/// Whether a number is from 1 to a greatest one.
#[tactic(auto, unfolding(review_names::specs::Forms::is_within))]
fn is_within(most: usize, number: usize) -> bool
    ensures { result ≡ is_within most number }
{
    1 <= number && number <= most
}

/// Whether there are as many patch sets and comments as there may be, and a patch set at all.
pub fn are_counted(patches: &[PatchRow], comments: &[Comment]) -> bool
    ensures { result ≡ are_counted (length patches.now) (length comments.now) }
{
    is_within(1_000, patches.len()) && comments.len() <= 10_000
}

/// Whether an account has a role, where the patch set is the current one.
fn has_role(
    patch: usize,
    current: usize,
    roles: &Table<AccountNo, Role>,
    account: AccountNo,
) -> bool
    ensures { result ≡ (not (patch == current) || is_some (of_account roles.now account)) }
{
    patch != current || roles.get(&account).is_some()
}

fn is_none(vote: Vote) -> bool
    ensures { result ≡ not (voted vote) }
{
    vote.get() == 0
}

fn is_placed(key: &VoteKey, current: usize, roles: &Table<AccountNo, Role>) -> bool
    ensures { result ≡ (is_within current key.now.patch && (not (key.now.patch == current) || is_some (of_account roles.now key.now.account))) }
{
    let patch = key.patch.get() as usize;
    is_within(current, patch) && has_role(patch, current, roles, key.account)
}

/// Whether a vote is on a patch set that is there, and its voter has a role where that is the current one.
fn is_in_place(key: &VoteKey, vote: &Vote, current: usize, roles: &Table<AccountNo, Role>) -> bool
    ensures { result ≡ is_in_place current (of_account roles.now) (key.now, vote.now) }
{
    is_none(*vote) || is_placed(key, current, roles)
}

pub fn are_in_place(
    alloc: Global,
    votes: &Table<VoteKey, Vote>,
    current: usize,
    roles: &Table<AccountNo, Role>,
) -> Result<bool, AllocError>
    ensures { IfOk result (λ b. b ≡ list_all (is_in_place current (of_account roles.now)) (rows_of votes.now)) }
{
    let rows = votes.rows(alloc)?;
    for (key, vote) in &rows {
        if !is_in_place(key, vote, current, roles) {
            return Ok(false);
        }
    }
    Ok(true)
}

fn answers_earlier(comment: &Comment, before: usize) -> bool
    ensures { result ≡ option_map_or (λ k. is_within before k) comment.now.answers true }
{
    match comment.row().answers {
        Some(number) => is_within(before, number.get() as usize),
        None => true,
    }
}

/// Whether a comment, before which there are so many, is on a patch set that is there and answers none but an earlier one.
fn is_earlier(comment: &Comment, current: usize, before: usize) -> bool
    ensures { result ≡ is_earlier current before comment.now }
{
    is_within(current, comment.row().patch.get() as usize) && answers_earlier(comment, before)
}

pub fn are_in_order(comments: &[Comment], current: usize) -> bool
    ensures { result ≡ are_in_order current 0 comments.now }
{
    for (before, comment) in comments.iter().enumerate() {
        if !is_earlier(comment, current, before) {
            return false;
        }
    }
    true
}

/// Whether all who are in the attention set are eligible.
pub fn are_eligible(
    alloc: Global,
    owner: AccountNo,
    uploader: AccountNo,
    roles: &Table<AccountNo, Role>,
    attention: &Table<AccountNo, AttentionEntry>,
) -> Result<bool, AllocError>
    ensures { IfOk result (λ b. b ≡ list_all (is_called_in_place owner uploader (of_account roles.now)) (rows_of attention.now)) }
{
    let rows = attention.rows(alloc)?;
    for (account, _) in &rows {
        if !is_eligible(owner, uploader, roles, **account) {
            return Ok(false);
        }
    }
    Ok(true)
}

pub fn are_all(counted: bool, ordered: bool, votes: bool, called: bool) -> bool
    ensures { result ≡ (counted && (ordered && (votes && called))) }
{
    counted && ordered && votes && called
}
