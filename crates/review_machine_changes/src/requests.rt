//! Requests on a change.
ghost use Rattle.std.specs.Prelude.{◌≡◌, ◌⊎◌, ◌<◌, List, IfOk, IfErr, length, option_copied, true, false, None};
ghost use Rattle.review_words.specs.History.{Entry, is_account};
ghost use Rattle.review_words.specs.{Texts.IsStored, declared.command.Command.TheVariants.OnChange};
ghost use Rattle.review_words.specs.declared.reply.NotTaken.TheVariants.{Damaged, Memory};
ghost use Rattle.review_core_rules.specs.{Change.after_plain, EditedChanges.Makes, Seen.seen};
ghost use Rattle.review_core_rules.specs.Sound.{IsSound, fits};
ghost use Rattle.review_machine_rows.specs.Answer.{first_refusal, most_requests, request_checks};
ghost use Rattle.review_machine_rows.specs.{Changes.Reading, Decisions.IsUndecided, Decisions.NamesEachOnce};
ghost use Rattle.review_machine_rows.specs.{Desks.facts_by, Rows.HasNoEffect, Steps.OfCommand};
ghost use Rattle.review_machine_rows.specs.View.{AreEnough, IsDecided};
ghost use Rattle.review_machine_changes.specs.inner.Done.{IsDone, IsPlainlyDone, is_plain, lacks_file};

use crate::edits::{change_file, turned};
use crate::facts::next_request;
use crate::refusing::request_refusal;
use crate::reviewing::reviewed;
use crate::uploading::uploaded;
use review_core::ChangeFile;
use review_core_rules::{ChangeRows, EditedChange};
use review_file::ProjectFile;
use review_file_rules::{groups_suffice, one_effective_file};
use review_machine_accounts::{needs_file, refused};
use review_machine_laws::changes_are_sound;
use review_machine_rows::{Delta, Rows};
use review_words::{AccountNo, Answer, ChangeCommand, ChangeNo, NotTaken, Refusal, Reply};
use std::alloc::{AllocError, Global};

/// The answer to a request on a change, and what it changes: the first check that fails refuses, in the order of the request's checks, and a
/// refusal changes nothing. An error is want of memory, or Damaged, where the rows are those of no history.
pub fn on_change(
    alloc: Global,
    effective: Option<&ProjectFile>,
    rows: &Rows,
    caller: AccountNo,
    change: ChangeNo,
    command: &ChangeCommand,
) -> Result<(Delta, Reply), NotTaken>
    ensures decided { IfOk result (λ r. (reading : Reading) (h : List Entry) → length h < most_requests → is_account h caller ≡ true → AreEnough reading h caller (OfCommand (OnChange change command.now)) (option_copied effective.entry) rows.now → IsDecided reading h caller (OnChange change command.now) r.0 r.1) }
    ensures cause { IfErr result (IsUndecided caller (OnChange change command.now) (option_copied effective.entry) rows.now) }
    ensures stored { IfOk result (λ r. IsStored r.1) }
    ensures refused { IfOk result (λ r. HasNoEffect r.1 r.0) }
    ensures epoch { IfOk result (λ r. r.0.least_epoch ≡ None) }
    ensures once { IfOk result (λ r. NamesEachOnce r.0) }
{
    one_effective_file();
    changes_are_sound();
    groups_suffice();
    let Some(found) = rows.change(change) else {
        return Ok(refused(alloc, Refusal::NoChange));
    };
    if lacks_file(effective, command) {
        return Err(NotTaken::Damaged);
    }
    let file = change_file(alloc, found)?;
    let refusal = request_refusal(alloc, effective, rows, caller, command, &file)?;
    if let Some(refusal) = refusal {
        return Ok(refused(alloc, refusal));
    }
    Ok(done(alloc, effective, rows, caller, change, &file, command)?)
}

/// Whether a request is judged by the project's file, and there is none.
fn lacks_file(effective: Option<&ProjectFile>, command: &ChangeCommand) -> bool
    ensures { result ≡ lacks_file (option_copied effective.entry) command.now }
{
    match effective {
        Some(_) => false,
        None => needs_file(command),
    }
}

/// The answer to a request that no check refuses, and what it changes.
fn done(
    alloc: Global,
    effective: Option<&ProjectFile>,
    rows: &Rows,
    caller: AccountNo,
    change: ChangeNo,
    file: &ChangeFile,
    command: &ChangeCommand,
) -> Result<(Delta, Reply), AllocError>
    requires judged { lacks_file (option_copied effective) command.now ≡ false }
    requires fits { fits command.now (seen file.now.rows.now) ≡ true }
    ensures made { IfOk result (λ r. IsDone (option_copied effective.entry) change command.now caller rows.now (seen file.now.rows.now) r.0 r.1) }
    ensures stored { IfOk result (λ r. IsStored r.1) }
    ensures refused { IfOk result (λ r. HasNoEffect r.1 r.0) }
    ensures epoch { IfOk result (λ r. r.0.least_epoch ≡ None) }
    ensures once { IfOk result (λ r. NamesEachOnce r.0) }
{
    match command {
        ChangeCommand::Upload(patch) => match effective {
            Some(project) => uploaded(alloc, project, rows, caller, change, file, patch),
            None => unreachable!(),
        },
        ChangeCommand::Review(review) => reviewed(alloc, rows, caller, change, file, review),
        _ => plainly_done(alloc, rows, caller, change, file, command),
    }
}

/// What a request makes of a change.
fn applied<'r>(
    alloc: Global,
    file: &ChangeFile<'r>,
    command: &ChangeCommand,
    caller: AccountNo,
    request: u64,
) -> Result<EditedChange<'r>, AllocError>
    requires plain { is_plain command.now ≡ true }
    requires fits { fits command.now (seen file.now.rows.now) ≡ true }
    ensures { IfOk result (Makes file.now.rows.now (after_plain command.now caller request (seen file.now.rows.now))) }
{
    match command {
        ChangeCommand::AddReviewer { account, role } => {
            file.with_reviewer(alloc, *account, *role, caller, request)
        }
        ChangeCommand::RemoveReviewer { account } => {
            file.without_reviewer(alloc, *account, caller, request)
        }
        ChangeCommand::SetWip => file.wip(alloc, caller, request),
        ChangeCommand::SetReady => file.ready(alloc, caller, request),
        ChangeCommand::Abandon => file.abandon(alloc, caller, request),
        ChangeCommand::Restore => file.restore(alloc, caller, request),
        ChangeCommand::AddAttention { account, reason } => {
            file.attend(alloc, *account, reason, caller, request)
        }
        ChangeCommand::RemoveAttention { account, reason } => {
            file.unattend(alloc, *account, reason, caller, request)
        }
        ChangeCommand::Upload(_) => unreachable!(),
        ChangeCommand::Review(_) => unreachable!(),
    }
}

/// The answer to a request that is neither a patch set nor a review, where no check refuses it, and what it changes.
fn plainly_done(
    alloc: Global,
    rows: &Rows,
    caller: AccountNo,
    change: ChangeNo,
    file: &ChangeFile,
    command: &ChangeCommand,
) -> Result<(Delta, Reply), AllocError>
    requires plain { is_plain command.now ≡ true }
    requires fits { fits command.now (seen file.now.rows.now) ≡ true }
    ensures made { IfOk result (λ r. IsPlainlyDone change command.now caller rows.now (seen file.now.rows.now) r.0 r.1) }
    ensures stored { IfOk result (λ r. IsStored r.1) }
    ensures refused { IfOk result (λ r. HasNoEffect r.1 r.0) }
    ensures epoch { IfOk result (λ r. r.0.least_epoch ≡ None) }
    ensures once { IfOk result (λ r. NamesEachOnce r.0) }
{
    let edited = applied(alloc, file, command, caller, next_request(rows))?;
    let delta = turned(alloc, change, edited)?;
    Ok((delta, Reply::Done(Answer::Nothing)))
}
