//! The answer to a command and what it changes, from the rows that decide it.
ghost use Rattle.std.specs.Prelude.{◌≡◌, ◌<◌, List, IfOk, IfErr, length, option_copied, true, false};
ghost use Rattle.review_words.specs.{History.Entry, History.if_done, Texts.IsStored};
ghost use Rattle.review_machine_rows.specs.{Answer.most_requests, Changes.Reading};
ghost use Rattle.review_machine_rows.specs.Decisions.{IsUndecided, NamesEachOnce, RestsOn};
ghost use Rattle.review_machine_rows.specs.Known.{known, number_of};
ghost use Rattle.review_machine_rows.specs.Rows.{HasNoEffect, new_least, is_above, is_below};
ghost use Rattle.review_machine_rows.specs.{Steps.OfCommand, View.AreEnough, View.IsDecidedAt};
ghost use Rattle.review_machine_rows.specs.declared.rows.Want.TheVariants as want;

use review_file::ProjectFile;
use review_file_lines::FileMemo;
use review_machine_accounts::{
    close_epoch, create_account, is_account, put_group, record_base, refused,
};
use review_machine_changes::{create_change, on_change};
use review_machine_needs::put_project;
use review_machine_rows::{Delta, Rows};
use review_machine_submits::submit;
use review_words::{AccountNo, Command, Epoch, NotTaken, Refusal, Reply};
use std::alloc::Global;

/// The reply to a command and what it changes, by this effective file of its project. The first check that fails refuses, in the order of the
/// command's checks; a refusal changes nothing, and each key is named once.
///
/// A least open epoch is named just where a CloseEpoch is accepted: the one that it names, which isn't beyond that of the request and is above the
/// one that rows tell. An error is want of memory; Pattern, where the engine refuses a pattern in the file that is put or in one that it goes on
/// from; or Damaged, where the rows are those of no history. Files that are read are remembered; no answer depends on which are.
pub fn decide(
    alloc: Global,
    memo: &mut FileMemo,
    effective: Option<&ProjectFile>,
    rows: &Rows,
    caller: AccountNo,
    epoch: Epoch,
    command: &Command,
) -> Result<(Delta, Reply), NotTaken>
    ensures decided { IfOk result (λ r. (reading : Reading) (h : List Entry) → length h < most_requests → RestsOn (OfCommand command.now) h → AreEnough reading h caller (OfCommand command.now) (option_copied effective.entry) rows.now → IsDecidedAt reading h caller epoch command.now r.0 r.1) }
    ensures cause { IfErr result (IsUndecided caller command.now (option_copied effective.entry) rows.now) }
    ensures stored { IfOk result (λ r. IsStored r.1) }
    ensures refused { IfOk result (λ r. HasNoEffect r.1 r.0) }
    ensures closes { IfOk result (λ r. r.0.least_epoch ≡ new_least (if_done r.1 command.now)) }
    ensures own { IfOk result (λ r. is_below r.0.least_epoch epoch ≡ false) }
    ensures raises { IfOk result (λ r. is_above r.0.least_epoch (number_of (known rows.now want.LeastEpoch)) ≡ true) }
    ensures once { IfOk result (λ r. NamesEachOnce r.0) }
{
    if !is_account(rows, caller) {
        return Ok(refused(alloc, Refusal::UnknownCaller));
    }
    match command {
        Command::CreateAccount { name } => create_account(alloc, rows, caller, name),
        Command::PutGroup { group, members } => put_group(alloc, rows, caller, group, members),
        Command::PutProject { project, file } => {
            put_project(alloc, memo, effective, rows, caller, project, file)
        }
        Command::RecordBase {
            project,
            branch,
            commit,
        } => record_base(alloc, rows, caller, project, branch, commit),
        Command::CreateChange(new) => create_change(alloc, effective, rows, caller, new),
        Command::OnChange { change, command } => {
            on_change(alloc, effective, rows, caller, *change, command)
        }
        Command::Submit { change } => submit(alloc, effective, rows, caller, *change),
        Command::CloseEpoch { epoch: least } => close_epoch(alloc, rows, caller, epoch, *least),
    }
}
