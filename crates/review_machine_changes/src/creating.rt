//! New changes.
ghost use Rattle.std.specs.Prelude.{◌≡◌, ◌<◌, ◌+◌, List, None, Option, IfOk, IfErr, length, nat_le, option_copied, true};
ghost use Rattle.review_names.specs.Forms.{is_within, most_changes, most_patches};
ghost use Rattle.review_table.specs.Rows.{after_row_edit};
ghost use Rattle.review_words.specs.History.{Entry, is_account};
ghost use Rattle.review_words.specs.{Texts.IsStored, declared.command.Command.TheVariants.CreateChange};
ghost use Rattle.review_words.specs.declared.reply.NotTaken.TheVariants.{Memory};
ghost use Rattle.review_core_rules.specs.{Change.begun, Parts.Part, Parts.part_row};
ghost use Rattle.review_machine_rows.specs.{Answer.checks, Answer.first_refusal, Answer.most_requests, Changes.Reading};
ghost use Rattle.review_machine_rows.specs.{Decisions.NamesEachOnce, Decisions.NamesRowsOnce, Desks.facts_by};
ghost use Rattle.review_machine_rows.specs.{Known.known, Known.number_of, Rows.HasNoEffect, Rows.part_change};
ghost use Rattle.review_machine_rows.specs.{Steps.OfCommand, View.AreEnough, View.IsDecided};
ghost use Rattle.review_machine_rows.specs.declared.rows.Want.TheVariants as want;

use crate::edits::delta_of;
use crate::facts::{has_right, next_request};
use review_core::begun;
use review_file::{ProjectFile, Right};
use review_file_rules::one_effective_file;
use review_machine_accounts::{branch_of, is_known, refused};
use review_machine_change_rows::{copied_new, edit_of_new};
use review_machine_rows::{ChangeEdit, Delta, Rows, Want};
use review_names::{BranchName, ProjectName};
use review_words::{AccountNo, Answer, ChangeNo, NewChange, NotTaken, PatchNo, Refusal, Reply};
use std::alloc::{AllocError, Global};

/// Whether a project has a branch.
fn has_branch(rows: &Rows, project: &ProjectName, branch: &BranchName) -> Result<bool, AllocError>
    ensures { IfOk result (λ b. b ≡ nat_le 1 (number_of (known rows.now (want.LastPlace (record { project = project.now; branch = branch.now }))))) }
{
    let want = Want::LastPlace(branch_of(project, branch)?);
    let last = rows.number(&want);
    drop(want);
    Ok(last > 0)
}

/// The first check of a new change that fails, where one does.
fn create_refusal(
    effective: Option<&ProjectFile>,
    rows: &Rows,
    caller: AccountNo,
    new: &NewChange,
) -> Result<Option<Refusal>, AllocError>
    ensures { IfOk result (λ r. r ≡ first_refusal (checks (facts_by rows.now (option_copied effective.entry)) caller (CreateChange new.now))) }
{
    let Some(file) = effective else {
        return Ok(Some(Refusal::NoProject));
    };
    if !has_branch(rows, &new.project, &new.branch)? {
        return Ok(Some(Refusal::NoBranch));
    }
    if !has_right(rows, file, Right::Create, caller)? {
        return Ok(Some(Refusal::NotAllowed));
    }
    if is_known(rows, &new.project, &new.branch, &new.commit)? {
        return Ok(Some(Refusal::CommitKnown));
    }
    if !is_known(rows, &new.project, &new.branch, &new.parent)? {
        return Ok(Some(Refusal::UnknownParent));
    }
    if last_change(rows) >= 1_000_000_000 {
        return Ok(Some(Refusal::Limit));
    }
    Ok(None)
}

/// The greatest number of a change.
fn last_change(rows: &Rows) -> u64
    ensures { result ≡ number_of (known rows.now want.LastChange) }
{
    let want = Want::LastChange;
    let last = rows.number(&want);
    drop(want);
    last
}

/// The number after that of the last change.
fn next_change(last: u64) -> ChangeNo
    requires { is_within most_changes (last + 1) ≡ true }
    ensures { result ≡ last + 1 }
{
    match ChangeNo::from_number(last + 1) {
        Some(next) => next,
        None => unreachable!(),
    }
}

/// The patch set of a number.
fn patch_of(number: u32) -> PatchNo
    requires { is_within most_patches number ≡ true }
    ensures { result ≡ number }
{
    match PatchNo::from_number(number as u64) {
        Some(patch) => patch,
        None => unreachable!(),
    }
}

/// What makes a new change.
fn begun_edit(
    alloc: Global,
    change: ChangeNo,
    new: &NewChange,
    caller: AccountNo,
    request: u64,
) -> Result<ChangeEdit, AllocError>
    ensures change { IfOk result (λ e. e.change ≡ change) }
    ensures becomes { IfOk result (λ e. (part : Part) → after_row_edit (part_change e part) None ≡ part_row (begun new.now caller request) part) }
    ensures once { IfOk result NamesRowsOnce }
{
    let new = copied_new(alloc, new)?;
    let rows = begun(alloc, new, caller, request)?;
    edit_of_new(alloc, change, rows)
}

/// A new change for a branch, with its first patch set; the caller is its owner. Refused for a project or a branch that isn't there, for
/// want of the right to create changes, a commit that is known in the branch, a parent that isn't, or the last number given, in this order.
/// An error is want of memory.
pub fn create_change(
    alloc: Global,
    effective: Option<&ProjectFile>,
    rows: &Rows,
    caller: AccountNo,
    new: &NewChange,
) -> Result<(Delta, Reply), NotTaken>
    ensures decided { IfOk result (λ r. (reading : Reading) (h : List Entry) → length h < most_requests → is_account h caller ≡ true → AreEnough reading h caller (OfCommand (CreateChange new.now)) (option_copied effective.entry) rows.now → IsDecided reading h caller (CreateChange new.now) r.0 r.1) }
    ensures cause { IfErr result (λ e. e ≡ Memory) }
    ensures stored { IfOk result (λ r. IsStored r.1) }
    ensures refused { IfOk result (λ r. HasNoEffect r.1 r.0) }
    ensures epoch { IfOk result (λ r. r.0.least_epoch ≡ None) }
    ensures once { IfOk result (λ r. NamesEachOnce r.0) }
{
    one_effective_file();
    let refusal = create_refusal(effective, rows, caller, new)?;
    if let Some(refusal) = refusal {
        return Ok(refused(alloc, refusal));
    }
    let change = next_change(last_change(rows));
    let request = next_request(rows);
    let edit = begun_edit(alloc, change, new, caller, request)?;
    let delta = delta_of(alloc, edit)?;
    let patch = patch_of(1);
    Ok((delta, Reply::Done(Answer::Change { change, patch })))
}
