//! A change as it is shown, and who is in its attention set.
ghost use Rattle.std.specs.{List.filter, Map.keys_of, Map.Iter.deref_pair};
ghost use Rattle.std.specs.Prelude.{◌≡◌, ◌++◌, ◌∷◌, [], Some, map, length, true, IfOk, OnOk};
ghost use Rattle.review_names.specs.Forms.{is_within, most_patches};
ghost use Rattle.review_core_rules.specs.Change.{current, of_number};
ghost use Rattle.review_core_rules.specs.{Listed.AreThose, Seen.of_account, Seen.seen};
ghost use Rattle.review_core_rules.specs.Shown.{AreAttentionEntries, AreVotes, IsShown, shown_attention_entry, shown_vote};
ghost use Rattle.{review_core_rules.specs.Sound.IsSound, review_machine_rows.specs.Answer.has_role};
ghost use Rattle.review_machine_submits.specs.inner.Told.{is_on};

use review_core::current_patch;
use review_core_rules::{AttentionEntry, ChangeRows, PatchRow, Vote, VoteKey};
use review_table::Table;
use review_words::{
    AccountNo, ChangeNo, Listed, PatchNo, Role, ShownAttentionEntry, ShownChange, ShownVote,
};
use std::alloc::{AllocError, Global};

fn is_role(role: Role, asked: Role) -> bool
    ensures { result ≡ has_role asked (Some role) }
{
    match asked {
        Role::Reviewer => matches!(role, Role::Reviewer),
        Role::Cc => matches!(role, Role::Cc),
    }
}

fn those_having(
    alloc: Global,
    rows: &[(&AccountNo, &Role)],
    asked: Role,
) -> Result<Vec<AccountNo>, AllocError>
    ensures { IfOk result (λ v. v.items ≡ keys_of (filter (λ e. has_role asked (Some e.1)) (map deref_pair rows.now))) }
{
    let mut accounts = Vec::new(alloc);
    for (account, role) in rows {
        if is_role(**role, asked) {
            accounts.push(**account)?;
        }
    }
    Ok(accounts)
}

/// The accounts that have a role, by number.
fn accounts_having(
    alloc: Global,
    roles: &Table<AccountNo, Role>,
    asked: Role,
) -> Result<Listed<AccountNo>, AllocError>
    ensures { IfOk result (AreThose (λ u. has_role asked (of_account roles.now u))) }
{
    let rows = roles.rows(alloc)?;
    let accounts = those_having(alloc, &rows, asked)?;
    Ok(Listed::from_vec(accounts))
}

fn push_vote(
    shown: &mut Vec<ShownVote>,
    patch: PatchNo,
    key: &VoteKey,
    vote: Vote,
) -> Result<(), AllocError>
    ensures { OnOk result (shown.new.items ≡ shown.old.items ++ map shown_vote (filter (is_on patch) ((key.now, vote) ∷ []))) }
{
    let value = vote.get();
    if key.patch != patch {
        return Ok(());
    }
    let label = key.label.copy()?;
    shown.push(ShownVote {
        label,
        account: key.account,
        value,
    })?;
    Ok(())
}

fn votes_on(
    alloc: Global,
    rows: &[(&VoteKey, &Vote)],
    patch: PatchNo,
) -> Result<Vec<ShownVote>, AllocError>
    ensures { IfOk result (λ v. v.items ≡ map shown_vote (filter (is_on patch) (map deref_pair rows.now))) }
{
    let mut shown = Vec::new(alloc);
    for (key, vote) in rows {
        push_vote(&mut shown, patch, key, **vote)?;
    }
    Ok(shown)
}

/// The votes on the current patch set, by label and then by account.
fn current_votes(
    alloc: Global,
    rows: &ChangeRows,
    patch: PatchNo,
) -> Result<Listed<ShownVote>, AllocError>
    requires { patch ≡ current (seen rows.now) }
    ensures { IfOk result (AreVotes (seen rows.now)) }
{
    let votes = rows.votes.rows(alloc)?;
    let shown = votes_on(alloc, &votes, patch)?;
    Ok(Listed::from_vec(shown))
}

fn calls(
    alloc: Global,
    rows: &[(&AccountNo, &AttentionEntry)],
) -> Result<Vec<ShownAttentionEntry>, AllocError>
    ensures { IfOk result (λ v. v.items ≡ map shown_attention_entry (map deref_pair rows.now)) }
{
    let mut shown = Vec::new(alloc);
    for (account, called) in rows {
        let reason = called.reason.copy()?;
        shown.push(ShownAttentionEntry {
            account: **account,
            reason,
            request: called.request,
        })?;
    }
    Ok(shown)
}

/// Who is in the attention set of a change, by account. An error is want of memory.
pub fn shown_attention(
    alloc: Global,
    rows: &ChangeRows,
) -> Result<Listed<ShownAttentionEntry>, AllocError>
    ensures { IfOk result (AreAttentionEntries (seen rows.now)) }
{
    let attention = rows.attention.rows(alloc)?;
    let shown = calls(alloc, &attention)?;
    Ok(Listed::from_vec(shown))
}

/// The last of some patch sets.
fn last_patch(patches: &[PatchRow]) -> &PatchRow
    requires { is_within most_patches (length patches.now) ≡ true }
    ensures { of_number patches.now (length patches.now) ≡ Some result.now }
{
    match patches.last() {
        Some(patch) => patch,
        None => unreachable!(),
    }
}

/// A sound change as it is shown, by its number. An error is want of memory.
pub fn shown_change(
    alloc: Global,
    change: ChangeNo,
    rows: &ChangeRows,
) -> Result<ShownChange, AllocError>
    requires { IsSound (seen rows.now) }
    ensures { IfOk result (IsShown change (seen rows.now)) }
{
    let patch = current_patch(&rows.patches);
    let last = last_patch(&rows.patches);
    let header = &rows.header;
    let reviewers = accounts_having(alloc, &rows.roles, Role::Reviewer)?;
    let ccs = accounts_having(alloc, &rows.roles, Role::Cc)?;
    let votes = current_votes(alloc, rows, patch)?;
    let project = header.project.copy()?;
    let branch = header.branch.copy()?;
    let subject = header.subject.copy()?;
    let commit = last.commit.copy()?;
    Ok(ShownChange {
        change,
        project,
        branch,
        subject,
        owner: header.owner,
        state: header.state,
        wip: header.wip,
        updated: header.updated,
        patch,
        commit,
        uploader: last.uploader,
        reviewers,
        ccs,
        votes,
    })
}
