//! What turns one change into another, row by row.
ghost use Rattle.std.specs.Ordering.{nat_cmp};
ghost use Rattle.std.specs.Prelude.{◌≡◌, ◌+◌, ◌≤◌, ℕ, IfOk, None, length};
ghost use Rattle.review_names.specs.Forms.{most_comments, most_patches};
ghost use Rattle.review_table.specs.Rows.{NamesOnce, after_row_edit, place_at, row_edit_of};
ghost use Rattle.review_core_rules.specs.{EditedChanges.IsBare, EditedChanges.after_edits, Parts.Part, Parts.part_row};
ghost use Rattle.review_core_rules.specs.{Seen.seen, Seen.vote_cmp, Sound.IsSound, declared.rows.VoteKey.VoteKey};
ghost use Rattle.review_machine_rows.specs.{Decisions.NamesRowsOnce, Rows.part_change};
ghost use Rattle.review_machine_change_rows.specs.Edits.{HasNoted, puts_after};

use review_core_rules::{
    AttentionEntry, ChangeRows, Comment, EditedChange, PatchRow, Vote, VoteKey,
};
use review_machine_rows::ChangeEdit;
use review_table::{Edited, RowEdit};
use review_words::{AccountNo, ChangeNo, CommentNo, PatchNo, Role};
use std::alloc::{AllocError, Global};

/// What turns the rows of a change in the making into that change: what was noted beside them.
pub fn edit_of(
    alloc: Global,
    change: ChangeNo,
    edited: EditedChange,
) -> Result<ChangeEdit, AllocError>
    requires sound { IsSound (after_edits edited) }
    ensures change { IfOk result (λ e. e.change ≡ change) }
    ensures becomes { IfOk result (λ e. (part : Part) → after_row_edit (part_change e part) (part_row (seen edited.entry.rows.now) part) ≡ part_row (after_edits edited.entry) part) }
    ensures noted { IfOk result (HasNoted edited.entry) }
    ensures once { IfOk result NamesRowsOnce }
{
    let EditedChange {
        rows,
        header,
        patches,
        votes,
        roles,
        comments,
        attention,
        ..
    } = edited;
    let marks = mark_edits(alloc, votes, roles, attention)?;
    let patches = more_patches(alloc, rows.patches.len(), patches)?;
    let comments = more_comments(alloc, rows.comments.len(), comments)?;
    Ok(ChangeEdit {
        change,
        header,
        patches,
        votes: marks.votes,
        roles: marks.roles,
        comments,
        attention: marks.attention,
    })
}

// What was noted of the rows of a change that are kept by accounts.
#[derive(Drop)]
struct MarkEdits {
    votes: Vec<RowEdit<VoteKey, Vote>>,
    roles: Vec<RowEdit<AccountNo, Role>>,
    attention: Vec<RowEdit<AccountNo, AttentionEntry>>,
}

fn mark_edits(
    alloc: Global,
    votes: Edited<'_, VoteKey, Vote>,
    roles: Edited<'_, AccountNo, Role>,
    attention: Edited<'_, AccountNo, AttentionEntry>,
) -> Result<MarkEdits, AllocError>
    ensures votes { IfOk result (λ e. (q : VoteKey) → row_edit_of vote_cmp e.votes.items q ≡ place_at vote_cmp votes.entry.edits.entries q) }
    ensures roles { IfOk result (λ e. (u : ℕ) → row_edit_of nat_cmp e.roles.items u ≡ place_at nat_cmp roles.entry.edits.entries u) }
    ensures attention { IfOk result (λ e. (u : ℕ) → row_edit_of nat_cmp e.attention.items u ≡ place_at nat_cmp attention.entry.edits.entries u) }
    ensures votes_once { IfOk result (λ e. NamesOnce vote_cmp e.votes.items) }
    ensures roles_once { IfOk result (λ e. NamesOnce nat_cmp e.roles.items) }
    ensures attention_once { IfOk result (λ e. NamesOnce nat_cmp e.attention.items) }
{
    let votes = votes.into_edits(alloc)?;
    let roles = roles.into_edits(alloc)?;
    let attention = attention.into_edits(alloc)?;
    Ok(MarkEdits {
        votes,
        roles,
        attention,
    })
}

/// What makes a change, which has patch sets alone, where there was none.
pub fn edit_of_new(
    alloc: Global,
    change: ChangeNo,
    new: ChangeRows,
) -> Result<ChangeEdit, AllocError>
    requires bare { IsBare new }
    requires patches { length new.patches.items ≤ most_patches }
    ensures change { IfOk result (λ e. e.change ≡ change) }
    ensures becomes { IfOk result (λ e. (part : Part) → after_row_edit (part_change e part) None ≡ part_row (seen new) part) }
    ensures once { IfOk result NamesRowsOnce }
{
    let ChangeRows {
        header,
        patches,
        ..
    } = new;
    let patches = more_patches(alloc, 0, patches)?;
    Ok(ChangeEdit {
        change,
        header,
        patches,
        votes: Vec::new(alloc),
        roles: Vec::new(alloc),
        comments: Vec::new(alloc),
        attention: Vec::new(alloc),
    })
}

// Patch sets under the numbers after so many.
fn more_patches(
    alloc: Global,
    before: usize,
    patches: Vec<PatchRow>,
) -> Result<Vec<RowEdit<PatchNo, PatchRow>>, AllocError>
    requires { before + length patches.items ≤ most_patches }
    ensures { IfOk result (λ edits. edits.items ≡ puts_after before patches.items) }
{
    let mut edits = Vec::with_capacity(alloc, patches.len())?;
    for patch in patches {
        let Some(key) = PatchNo::from_number((before + edits.len() + 1) as u64) else {
            unreachable!()
        };
        edits.push(RowEdit {
            key,
            row: Some(patch),
        })?;
    }
    Ok(edits)
}

// Comments under the numbers after so many.
fn more_comments(
    alloc: Global,
    before: usize,
    comments: Vec<Comment>,
) -> Result<Vec<RowEdit<CommentNo, Comment>>, AllocError>
    requires { before + length comments.items ≤ most_comments }
    ensures { IfOk result (λ edits. edits.items ≡ puts_after before comments.items) }
{
    let mut edits = Vec::with_capacity(alloc, comments.len())?;
    for comment in comments {
        let Some(key) = CommentNo::from_number((before + edits.len() + 1) as u64) else {
            unreachable!()
        };
        edits.push(RowEdit {
            key,
            row: Some(comment),
        })?;
    }
    Ok(edits)
}
