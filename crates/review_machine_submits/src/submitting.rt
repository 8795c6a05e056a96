//! Submits.
ghost use Rattle.std.specs.List.{AllByRecursion};
ghost use Rattle.std.specs.Prelude.{◌≡◌, ◌<◌, List, ℕ, Some, IfErr, IfOk, length, option_copied, true, None};
ghost use Rattle.review_words.specs.{History.Entry, History.is_account, Texts.IsChangeNumber, Texts.IsStored};
ghost use Rattle.{review_words.specs.declared.command.Command.TheVariants.Submit, review_chain.specs.Steps.IsFault};
ghost use Rattle.{review_chain.specs.Walks.IsChain, review_core_rules.specs.Seen.seen};
ghost use Rattle.review_machine_rows.specs.{Answer.IsHistory, Answer.most_requests, Changes.Reading};
ghost use Rattle.review_machine_rows.specs.Decisions.{IsUndecided, NamesEachOnce};
ghost use Rattle.review_machine_rows.specs.{Links.links_in, Rows.HasNoEffect, Steps.OfCommand, Submits.refusal_of};
ghost use Rattle.review_machine_rows.specs.View.{AreEnough, IsDecided};
ghost use Rattle.review_machine_submits.specs.Submits.{IsChecked, change_at};
ghost use Rattle.review_machine_submits.specs.inner.Words.{IsNoRefusal, IsSubmitted, IsUnchained};

use crate::checking::{first_unsatisfied, submit_refusal};
use crate::joining::join_chain;
use review_chain::{ChainFault, chain, each_front_is_a_chain};
use review_core_rules::ChangeRows;
use review_file::ProjectFile;
use review_file_rules::{groups_suffice, one_effective_file};
use review_machine_accounts::refused;
use review_machine_laws::{
    branches_are_whole, changes_are_sound, joined_few, last_is_length, rows_are_parts,
    wants_are_unknown,
};
use review_machine_rows::{Delta, RowLinks, Rows};
use review_words::{AccountNo, Answer, ChangeNo, Listed, NotTaken, Refusal, Reply};
use std::alloc::Global;

/// The answer to a submit, and what it changes: a check of the change that fails refuses, then the bad link of its chain, then the first
/// requirement that is unsatisfied for a change of the chain, in the chain's order; otherwise all changes of the chain join their branch.
/// A refusal changes nothing. An error is want of memory, or Damaged, where the rows are those of no history.
pub fn submit(
    alloc: Global,
    effective: Option<&ProjectFile>,
    rows: &Rows,
    caller: AccountNo,
    change: ChangeNo,
) -> Result<(Delta, Reply), NotTaken>
    ensures decided { IfOk result (λ r. (reading : Reading) (h : List Entry) → length h < most_requests → IsHistory h → is_account h caller ≡ true → AreEnough reading h caller (OfCommand (Submit change)) (option_copied effective.entry) rows.now → IsDecided reading h caller (Submit change) r.0 r.1) }
    ensures cause { IfErr result (IsUndecided caller (Submit change) (option_copied effective.entry) rows.now) }
    ensures stored { IfOk result (λ r. IsStored r.1) }
    ensures refused { IfOk result (λ r. HasNoEffect r.1 r.0) }
    ensures epoch { IfOk result (λ r. r.0.least_epoch ≡ None) }
    ensures once { IfOk result (λ r. NamesEachOnce r.0) }
{
    one_effective_file();
    groups_suffice();
    changes_are_sound();
    branches_are_whole();
    rows_are_parts();
    wants_are_unknown();
    last_is_length();
    joined_few();
    let Some(found) = rows.change(change) else {
        return Ok(refused(alloc, Refusal::NoChange));
    };
    let Some(file) = effective else {
        return Err(NotTaken::Damaged);
    };
    let refusal = submit_refusal(file, rows, caller, found)?;
    if let Some(refusal) = refusal {
        return Ok(refused(alloc, refusal));
    }
    submit_chain(alloc, file, rows, change, found)
}

/// The answer to a submit that no check of its change refuses, and what it changes.
fn submit_chain(
    alloc: Global,
    file: &ProjectFile,
    rows: &Rows,
    change: ChangeNo,
    found: &ChangeRows,
) -> Result<(Delta, Reply), NotTaken>
    requires { change_at rows.now change ≡ Some (seen found.now) }
    ensures submitted { IfOk result (λ r. IsSubmitted file.now rows.now change (seen found.now) r.0 r.1) }
    ensures cause { IfErr result (IsUnchained rows.now change (seen found.now)) }
    ensures stored { IfOk result (λ r. IsStored r.1) }
    ensures refused { IfOk result (λ r. HasNoEffect r.1 r.0) }
    ensures epoch { IfOk result (λ r. r.0.least_epoch ≡ None) }
    ensures once { IfOk result (λ r. NamesEachOnce r.0) }
{
    let links = RowLinks {
        rows,
        project: &found.header.project,
        branch: &found.header.branch,
    };
    match chain(alloc, &links, change) {
        Ok(chain) => check_chain(alloc, file, rows, change, found, chain),
        Err(fault) => Ok(refused(alloc, refusal_of(fault)?)),
    }
}

/// The refusal for a bad link. Damaged where no branch has such links.
fn refusal_of(fault: ChainFault) -> Result<Refusal, NotTaken>
    ensures ok { IfOk result (λ r. refusal_of fault ≡ Some r) }
    ensures cause { IfErr result (IsNoRefusal fault) }
{
    match fault {
        ChainFault::Outdated => Ok(Refusal::ChainOutdated),
        ChainFault::Abandoned => Ok(Refusal::ChainAbandoned),
        ChainFault::Wip => Ok(Refusal::ChainWip),
        ChainFault::TooLong => Ok(Refusal::ChainTooLong),
        ChainFault::Broken => Err(NotTaken::Damaged),
        ChainFault::Unknown => Err(NotTaken::Damaged),
        ChainFault::Memory => Err(NotTaken::Memory),
    }
}

/// The answer to a submit of a chain, and what it changes.
fn check_chain(
    alloc: Global,
    file: &ProjectFile,
    rows: &Rows,
    change: ChangeNo,
    found: &ChangeRows,
    chain: Vec<ChangeNo>,
) -> Result<(Delta, Reply), NotTaken>
    requires there { change_at rows.now change ≡ Some (seen found.now) }
    requires chain { IsChain (links_in rows.now found.now.header.project found.now.header.branch) chain.items change }
    ensures checked { IfOk result (λ r. IsChecked file.now rows.now change (seen found.now) r.0 r.1) }
    ensures cause { IfErr result (IsUnchained rows.now change (seen found.now)) }
    ensures stored { IfOk result (λ r. IsStored r.1) }
    ensures refused { IfOk result (λ r. HasNoEffect r.1 r.0) }
    ensures epoch { IfOk result (λ r. r.0.least_epoch ≡ None) }
    ensures once { IfOk result (λ r. NamesEachOnce r.0) }
{
    let unsatisfied = first_unsatisfied(alloc, file, rows, &chain)?;
    if let Some((change, requirement)) = unsatisfied {
        let refusal = Refusal::RequirementUnsatisfied {
            change,
            requirement,
        };
        return Ok(refused(alloc, refusal));
    }
    are_numbers(&chain);
    each_front_is_a_chain();
    let delta = join_chain(alloc, rows, found, &chain)?;
    Ok((
        delta,
        Reply::Done(Answer::Submitted(Listed::from_vec(chain))),
    ))
}

// The numbers of changes are of their form.
fn are_numbers(changes: &[ChangeNo])
    ensures { AllByRecursion IsChangeNumber changes.now }
{
    for change in changes {
        let _ = change.get();
    }
}
