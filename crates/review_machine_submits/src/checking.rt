//! What may refuse a submit.
ghost use Rattle.std.specs.{List.AllByRecursion, Prelude.◌≡◌, Prelude.IfOk, Prelude.Some, Prelude.option_map};
ghost use Rattle.review_core_rules.specs.Facts.{IsFirstUnsatisfied, is_unsatisfied, unsatisfied_in};
ghost use Rattle.review_core_rules.specs.Seen.{seen};
ghost use Rattle.review_machine_rows.specs.{Answer.first_refusal, Answer.submit_checks, Desks.facts_by};
ghost use Rattle.review_machine_submits.specs.Submits.{IsThere, judged_in};

use review_core_rules::ChangeRows;
use review_core_standing::statuses;
use review_file::{ProjectFile, Right};
use review_machine_changes::facts::{has_right, is_open};
use review_machine_rows::Rows;
use review_words::{AccountNo, ChangeNo, LabelName, Refusal, ShownRequirement, Status};
use std::alloc::{AllocError, Global};

/// The first check of a submit that fails: the right, then the state, then work in progress.
pub fn submit_refusal(
    file: &ProjectFile,
    rows: &Rows,
    caller: AccountNo,
    change: &ChangeRows,
) -> Result<Option<Refusal>, AllocError>
    ensures { IfOk result (λ r. r ≡ first_refusal (submit_checks (facts_by rows.now (Some file.now)) caller (seen change.now))) }
{
    if !has_right(rows, file, Right::Submit, caller)? {
        return Ok(Some(Refusal::NotAllowed));
    }
    if !is_open(change.header.state) {
        return Ok(Some(Refusal::Closed));
    }
    if change.header.wip {
        return Ok(Some(Refusal::WorkInProgress));
    }
    Ok(None)
}

/// The first change of a chain with its first requirement that is unsatisfied, by the project's file.
pub fn first_unsatisfied(
    alloc: Global,
    file: &ProjectFile,
    rows: &Rows,
    chain: &[ChangeNo],
) -> Result<Option<(ChangeNo, LabelName)>, AllocError>
    requires { AllByRecursion (IsThere rows.now) chain.now }
    ensures { IfOk result (λ found. IsFirstUnsatisfied (judged_in file.now rows.now) chain.now found) }
{
    for change in chain {
        let Some(found) = rows.change(*change) else {
            unreachable!()
        };
        let shown = statuses(alloc, found, file, &rows.groups)?;
        if let Some(requirement) = unsatisfied(shown.as_slice())? {
            return Ok(Some((*change, requirement)));
        }
    }
    Ok(None)
}

/// The first requirement that is unsatisfied.
fn unsatisfied(shown: &[ShownRequirement]) -> Result<Option<LabelName>, AllocError>
    ensures { IfOk result (λ name. name ≡ unsatisfied_in shown.now) }
{
    for requirement in shown {
        if is_unsatisfied(requirement.status) {
            return Ok(Some(requirement.name.copy()?));
        }
    }
    Ok(None)
}

fn is_unsatisfied(status: Status) -> bool
    ensures { result ≡ is_unsatisfied status }
{
    matches!(status, Status::Unsatisfied)
}
