//! The pages of a change and of a branch. Each call fails for want of memory alone.
ghost use Rattle.std.specs.Prelude.{◌≡◌, ◌++◌, IfOk, OnOk, flat_map, string_bytes};
ghost use Rattle.review_desk_work.specs.Told.{about_lines, attention_line, change_text, joined_text, requirement_line, reviewing_lines, role_line, state_line, subject_line, branch_line, vote_line, patch_line, wip_line};

use crate::lines::{
    push_attention, push_joined, push_pair, push_patch, push_requirement, push_role, push_state,
    push_three, push_vote, yes_or_no,
};
use review_words::{
    AccountNo, JoinedChange, ShownAttentionEntry, ShownChange, ShownRequirement, ShownVote,
};
use std::alloc::{AllocError, Global};

/// Adds the lines of where a change stands, of its subject and its branch.
fn push_head(text: &mut String, change: &ShownChange) -> Result<(), AllocError>
    ensures { OnOk result (string_bytes text.new ≡ string_bytes text.old ++ (state_line change.now ++ (subject_line change.now ++ branch_line change.now))) }
{
    push_state(text, change)?;
    push_pair(text, "subject", change.subject.as_str())?;
    let project = change.project.as_str();
    push_three(text, "branch", project, change.branch.as_str())
}

/// Adds the lines of what a change is.
fn push_about(text: &mut String, change: &ShownChange) -> Result<(), AllocError>
    ensures { OnOk result (string_bytes text.new ≡ string_bytes text.old ++ about_lines change.now) }
{
    push_head(text, change)?;
    push_role(text, "owner", change.owner)?;
    push_patch(text, change)?;
    push_pair(text, "wip", yes_or_no(change.wip))
}

fn push_votes(alloc: Global, text: &mut String, votes: &[ShownVote]) -> Result<(), AllocError>
    ensures { OnOk result (string_bytes text.new ≡ string_bytes text.old ++ flat_map vote_line votes.now) }
{
    for vote in votes {
        push_vote(alloc, text, vote)?;
    }
    Ok(())
}

fn push_accounts(text: &mut String, role: &str, accounts: &[AccountNo]) -> Result<(), AllocError>
    ensures { OnOk result (string_bytes text.new ≡ string_bytes text.old ++ flat_map (role_line role.now) accounts.now) }
{
    for account in accounts {
        push_role(text, role, *account)?;
    }
    Ok(())
}

/// Adds the lines of votes and of those who review.
fn push_review(alloc: Global, text: &mut String, change: &ShownChange) -> Result<(), AllocError>
    ensures { OnOk result (string_bytes text.new ≡ string_bytes text.old ++ reviewing_lines change.now) }
{
    push_votes(alloc, text, change.votes.as_slice())?;
    push_accounts(text, "reviewer", change.reviewers.as_slice())?;
    push_accounts(text, "cc", change.ccs.as_slice())
}

fn push_requirements(text: &mut String, requirements: &[ShownRequirement]) -> Result<(), AllocError>
    ensures { OnOk result (string_bytes text.new ≡ string_bytes text.old ++ flat_map requirement_line requirements.now) }
{
    for requirement in requirements {
        push_requirement(text, requirement)?;
    }
    Ok(())
}

fn push_attention_lines(text: &mut String, calls: &[ShownAttentionEntry]) -> Result<(), AllocError>
    ensures { OnOk result (string_bytes text.new ≡ string_bytes text.old ++ flat_map attention_line calls.now) }
{
    for call in calls {
        push_attention(text, call)?;
    }
    Ok(())
}

/// The lines of a change itself.
fn change_lines(alloc: Global, change: &ShownChange) -> Result<String, AllocError>
    ensures { IfOk result (λ text. string_bytes text ≡ about_lines change.now ++ reviewing_lines change.now) }
{
    let mut text = String::new(alloc);
    push_about(&mut text, change)?;
    push_review(alloc, &mut text, change)?;
    Ok(text)
}

/// The page of a change: what it is, who reviews it, how its requirements stand, and who has to act.
pub fn change_text(
    alloc: Global,
    change: &ShownChange,
    requirements: &[ShownRequirement],
    calls: &[ShownAttentionEntry],
) -> Result<String, AllocError>
    ensures { IfOk result (λ text. string_bytes text ≡ change_text change.now requirements.now calls.now) }
{
    let mut text = change_lines(alloc, change)?;
    push_requirements(&mut text, requirements)?;
    push_attention_lines(&mut text, calls)?;
    Ok(text)
}

/// The page of a branch: a line for each change that joined it, by their places from 1.
pub fn joined_text(alloc: Global, joined: &[JoinedChange]) -> Result<String, AllocError>
    ensures { IfOk result (λ text. string_bytes text ≡ joined_text joined.now) }
{
    let mut text = String::new(alloc);
    for (index, change) in joined.iter().enumerate() {
        push_joined(&mut text, index as u64 + 1, change)?;
    }
    Ok(text)
}
