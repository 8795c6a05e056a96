//! New patch sets.
ghost use Rattle.std.specs.Prelude.{◌≡◌, ◌⊎◌, ◌<◌, ◌+◌, ◌==◌, ◌||◌, Some, IfOk, true, None};
ghost use Rattle.review_names.specs.Forms.{is_within, most_patches};
ghost use Rattle.review_words.specs.Texts.{IsStored, IsStoredAnswer};
ghost use Rattle.review_words.specs.declared.command.ChangeCommand.TheVariants.{Upload as UploadOf};
ghost use Rattle.review_words.specs.declared.reply.Answer.TheVariants.{Patch};
ghost use Rattle.review_core_rules.specs.Change.{after, carried, copying, current, is_lost};
ghost use Rattle.review_core_rules.specs.{Counts.AreMany, EditedChanges.Makes, Seen.seen, Sound.fits, Votes.voted};
ghost use Rattle.review_machine_rows.specs.Answer.{first_refusal, has_right, upload_checks};
ghost use Rattle.review_machine_rows.specs.{Decisions.NamesEachOnce, Desks.facts_by, Desks.facts_in, Rows.HasNoEffect};
ghost use Rattle.review_machine_changes.specs.{Deltas.setting_in, inner.Done.IsUploaded};
ghost use Rattle.review_file_rules.specs.declared.parts.Right.TheVariants as right;

use crate::edits::turned;
use crate::facts::{has_right, is_open, next_request};
use review_core::{ChangeFile, Copied};
use review_core_rules::{ChangeRows, EditedChange, Header};
use review_file::{ProjectFile, Right};
use review_machine_accounts::is_known;
use review_machine_change_rows::copied_patch;
use review_machine_rows::{Delta, Rows};
use review_words::{AccountNo, Answer, ChangeNo, NewPatch, PatchNo, Refusal, Reply};
use std::alloc::{AllocError, Global};

/// Whether an account may send patch sets of a change: as its owner, or by the right to.
fn may_upload(
    file: &ProjectFile,
    rows: &Rows,
    caller: AccountNo,
    header: &Header,
) -> Result<bool, AllocError>
    ensures { IfOk result (λ b. b ≡ ((caller == header.now.owner) || has_right (facts_in rows.now) file.now right.Upload caller)) }
{
    if caller == header.owner {
        return Ok(true);
    }
    has_right(rows, file, Right::Upload, caller)
}

/// The first check of a new patch set that fails, where one does: for an account that isn't the owner and has no right to upload, a closed
/// change, a commit that is known in the branch, a parent that isn't, or the last number given, in this order.
pub fn upload_refusal(
    file: &ProjectFile,
    rows: &Rows,
    caller: AccountNo,
    patch: &NewPatch,
    change: &ChangeRows,
) -> Result<Option<Refusal>, AllocError>
    ensures { IfOk result (λ r. r ≡ first_refusal (upload_checks (facts_by rows.now (Some file.now)) caller patch.now (seen change.now))) }
{
    let header = &change.header;
    if !may_upload(file, rows, caller, header)? {
        return Ok(Some(Refusal::NotAllowed));
    }
    if !is_open(header.state) {
        return Ok(Some(Refusal::Closed));
    }
    if is_known(rows, &header.project, &header.branch, &patch.commit)? {
        return Ok(Some(Refusal::CommitKnown));
    }
    if !is_known(rows, &header.project, &header.branch, &patch.parent)? {
        return Ok(Some(Refusal::UnknownParent));
    }
    if change.patches.len() >= 1000 {
        return Ok(Some(Refusal::Limit));
    }
    Ok(None)
}

/// The number of the patch set after so many.
#[tactic(auto, using(crate::proofs::Made::next_below))]
fn next_patch(count: usize) -> PatchNo
    requires { is_within most_patches (count + 1) ≡ true }
    ensures { result ≡ count + 1 }
{
    match PatchNo::from_number(count as u64 + 1) {
        Some(next) => next,
        None => unreachable!(),
    }
}

/// The answer to a new patch set, with how many votes were copied and how many not.
fn patch_answer(change: ChangeNo, patch: PatchNo, counts: Copied) -> Answer
    ensures value { result ≡ Patch change patch counts.copied counts.outdated }
    ensures stored { IsStoredAnswer result }
{
    let _numbers = (change.get(), patch.get());
    Answer::Patch {
        change,
        patch,
        copied: counts.copied as u64,
        outdated: counts.outdated as u64,
    }
}

/// A change with a new patch set, and the numbers of votes that were copied to it and that weren't.
fn with_patch<'r>(
    alloc: Global,
    project: &ProjectFile,
    rows: &Rows,
    caller: AccountNo,
    file: &ChangeFile<'r>,
    patch: &NewPatch,
    request: u64,
) -> Result<(EditedChange<'r>, Copied), AllocError>
    requires { fits (UploadOf patch.now) (seen file.now.rows.now) ≡ true }
    ensures change { IfOk result (λ r. Makes file.now.rows.now (after (setting_in project.now rows.now) (UploadOf patch.now) caller request (seen file.now.rows.now)) r.0) }
    ensures copied { IfOk result (λ r. AreMany (λ l u. voted (carried (copying (setting_in project.now rows.now) (UploadOf patch.now) caller (seen file.now.rows.now)) (seen file.now.rows.now) l u)) r.1.copied) }
    ensures outdated { IfOk result (λ r. AreMany (λ l u. is_lost (copying (setting_in project.now rows.now) (UploadOf patch.now) caller (seen file.now.rows.now)) (seen file.now.rows.now) u l) r.1.outdated) }
{
    let patch = copied_patch(alloc, patch)?;
    file.with_patch_set(alloc, patch, caller, project, &rows.groups, request)
}

/// The answer to a new patch set that no check refuses, and what it changes: it has the votes of the one before it that copy conditions
/// copy, by the project's file and the groups before the command. The answer has the numbers of votes that were copied and that weren't.
pub fn uploaded(
    alloc: Global,
    project: &ProjectFile,
    rows: &Rows,
    caller: AccountNo,
    change: ChangeNo,
    file: &ChangeFile,
    patch: &NewPatch,
) -> Result<(Delta, Reply), AllocError>
    requires { fits (UploadOf patch.now) (seen file.now.rows.now) ≡ true }
    ensures made { IfOk result (λ r. IsUploaded project.now change patch.now caller rows.now (seen file.now.rows.now) r.0 r.1) }
    ensures stored { IfOk result (λ r. IsStored r.1) }
    ensures refused { IfOk result (λ r. HasNoEffect r.1 r.0) }
    ensures epoch { IfOk result (λ r. r.0.least_epoch ≡ None) }
    ensures once { IfOk result (λ r. NamesEachOnce r.0) }
{
    let request = next_request(rows);
    let (edited, counts) = with_patch(alloc, project, rows, caller, file, patch, request)?;
    let next = next_patch(file.rows().patches.len());
    let delta = turned(alloc, change, edited)?;
    let answer = patch_answer(change, next, counts);
    Ok((delta, Reply::Done(answer)))
}
