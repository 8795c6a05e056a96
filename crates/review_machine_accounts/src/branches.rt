//! Decisions on branches.
ghost use Rattle.std.specs.Prelude.{◌≡◌, List, Option, IfOk, IfErr, true, None};
ghost use Rattle.review_words.specs.History.{Entry, is_account};
ghost use Rattle.review_words.specs.{Texts.IsStored, declared.command.Command.TheVariants.RecordBase};
ghost use Rattle.review_words.specs.declared.reply.NotTaken.TheVariants.{Memory};
ghost use Rattle.review_machine_rows.specs.Answer.{checks, first_refusal};
ghost use Rattle.review_machine_rows.specs.{Changes.Reading, Decisions.NamesEachOnce, Desks.facts_in, Files.File};
ghost use Rattle.review_machine_rows.specs.{Rows.HasNoEffect, Steps.OfCommand, View.AreEnough, View.IsDecided};

use crate::callers::is_admin;
use crate::commits::is_known;
use crate::deltas::{nothing, refused};
use crate::keys::{base_of, branch_of};
use crate::projects::{has_room, is_project};
use review_machine_rows::{Delta, PlaceKey, Put, Rows, Want};
use review_words::{
    AccountNo, Answer, BranchName, CommitName, NotTaken, ProjectName, Refusal, Reply,
};
use std::alloc::{AllocError, Global};

/// Records a commit as the next base of a branch. Refused for an administrator missing, a project that isn't there, a commit that is known in
/// the branch, as a base or as that of a patch set, or the most bases of a project, in this order; an error is want of memory.
pub fn record_base(
    alloc: Global,
    rows: &Rows,
    caller: AccountNo,
    project: &ProjectName,
    branch: &BranchName,
    commit: &CommitName,
) -> Result<(Delta, Reply), NotTaken>
    ensures decided { IfOk result (λ r. (reading : Reading) (effective : Option File) (h : List Entry) → is_account h caller ≡ true → AreEnough reading h caller (OfCommand (RecordBase project.now branch.now commit.now)) effective rows.now → IsDecided reading h caller (RecordBase project.now branch.now commit.now) r.0 r.1) }
    ensures cause { IfErr result (λ e. e ≡ Memory) }
    ensures stored { IfOk result (λ r. IsStored r.1) }
    ensures refused { IfOk result (λ r. HasNoEffect r.1 r.0) }
    ensures epoch { IfOk result (λ r. r.0.least_epoch ≡ None) }
    ensures once { IfOk result (λ r. NamesEachOnce r.0) }
{
    let refusal = base_refusal(alloc, rows, caller, project, branch, commit)?;
    if let Some(refusal) = refusal {
        return Ok(refused(alloc, refusal));
    }
    let want = Want::LastPlace(branch_of(project, branch)?);
    let last = rows.number(&want);
    drop(want);
    let place = last.saturating_add(1);
    let base = base_of(project, branch, commit)?;
    let mut delta = nothing(alloc);
    delta.base = Some(Put {
        key: PlaceKey {
            project: base.project,
            branch: base.branch,
            place,
        },
        row: base.commit,
    });
    Ok((delta, Reply::Done(Answer::Nothing)))
}

// The first check of a new base that fails, where one does.
fn base_refusal(
    alloc: Global,
    rows: &Rows,
    caller: AccountNo,
    project: &ProjectName,
    branch: &BranchName,
    commit: &CommitName,
) -> Result<Option<Refusal>, AllocError>
    ensures { IfOk result (λ r. r ≡ first_refusal (checks (facts_in rows.now) caller (RecordBase project.now branch.now commit.now))) }
{
    if !is_admin(alloc, rows, caller)? {
        return Ok(Some(Refusal::NotAdmin));
    }
    if !is_project(rows, project)? {
        return Ok(Some(Refusal::NoProject));
    }
    if is_known(rows, project, branch, commit)? {
        return Ok(Some(Refusal::CommitKnown));
    }
    if !has_room(rows, project)? {
        return Ok(Some(Refusal::Limit));
    }
    Ok(None)
}
