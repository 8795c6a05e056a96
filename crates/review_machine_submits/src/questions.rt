//! The answers to questions.
ghost use Rattle.std.specs.Prelude.{ℕ, ◌≡◌, ◌⊎◌, List, Option, IfOk, IfErr, option_copied};
ghost use Rattle.review_words.specs.History.{Entry};
ghost use Rattle.review_words.specs.declared.command.{ChangeQuery.TheVariants.Requirements, Query.TheVariants.OnChange};
ghost use Rattle.review_words.specs.declared.reply.NotTaken.TheVariants.{Damaged, Memory};
ghost use Rattle.review_core_rules.specs.{Seen.seen, Shown.IsToldOf, Sound.IsSound};
ghost use Rattle.review_machine_rows.specs.Changes.{Reading};
ghost use Rattle.review_machine_rows.specs.Decisions.{IsDoneOrRefused, IsUnshown, RestsOn};
ghost use Rattle.review_machine_rows.specs.{Questions.IsQueryAnswerBy, Steps.OfQuery, View.AreEnough};
ghost use Rattle.review_machine_submits.specs.inner.Told.{IsToldBy, LacksFile, setting_by};

use crate::branches::show_branch;
use crate::showing::{shown_attention, shown_change};
use review_core::ChangeFile;
use review_core_rules::ChangeRows;
use review_core_standing::{statuses, threads};
use review_core_tables::GroupTables;
use review_file::ProjectFile;
use review_file_rules::{groups_suffice, one_effective_file};
use review_machine_accounts::is_asker;
use review_machine_changes::edits::change_file;
use review_machine_laws::changes_are_sound;
use review_machine_rows::Rows;
use review_words::{AccountNo, Answer, ChangeNo, ChangeQuery, NotTaken, Query, Refusal, Reply};
use std::alloc::{AllocError, Global};

/// The answer to a question, which changes nothing. UnknownCaller comes before all other refusals, then NoChange, or NoProject and
/// NoBranch. How requirements stand is judged by `effective`, the effective file of the change's project. An error is want of memory, or Damaged, where
/// the rows are those of no history.
pub fn show(
    alloc: Global,
    effective: Option<&ProjectFile>,
    rows: &Rows,
    caller: AccountNo,
    query: &Query,
) -> Result<Reply, NotTaken>
    ensures shown { IfOk result (λ r. (reading : Reading) (h : List Entry) → RestsOn (OfQuery query.now) h → AreEnough reading h caller (OfQuery query.now) (option_copied effective.entry) rows.now → IsQueryAnswerBy reading h caller query.now r) }
    ensures answered { IfOk result IsDoneOrRefused }
    ensures cause { IfErr result (IsUnshown caller query.now (option_copied effective.entry) rows.now) }
{
    match query {
        Query::Branch { project, branch } => show_branch(alloc, rows, caller, project, branch),
        Query::OnChange { change, query } => show_on(
            alloc, effective, rows, caller, *change, *query,
        ),
    }
}

/// The answer to a question about a change.
fn show_on(
    alloc: Global,
    effective: Option<&ProjectFile>,
    rows: &Rows,
    caller: AccountNo,
    change: ChangeNo,
    query: ChangeQuery,
) -> Result<Reply, NotTaken>
    ensures shown { IfOk result (λ r. (reading : Reading) (h : List Entry) → AreEnough reading h caller (OfQuery (OnChange change query)) (option_copied effective.entry) rows.now → IsQueryAnswerBy reading h caller (OnChange change query) r) }
    ensures answered { IfOk result IsDoneOrRefused }
    ensures cause { IfErr result (IsUnshown caller (OnChange change query) (option_copied effective.entry) rows.now) }
{
    one_effective_file();
    changes_are_sound();
    groups_suffice();
    let known = is_asker(rows, caller);
    if !known {
        return Ok(Reply::Refused(Refusal::UnknownCaller));
    }
    let Some(found) = rows.change(change) else {
        return Ok(Reply::Refused(Refusal::NoChange));
    };
    let told = answer_about(alloc, effective, rows, change, found, query)?;
    Ok(Reply::Done(told))
}

/// What a question about a change is told, by the change's rows. Damaged only where they don't fit together, or there is no file to judge by.
fn answer_about(
    alloc: Global,
    effective: Option<&ProjectFile>,
    rows: &Rows,
    change: ChangeNo,
    found: &ChangeRows,
    query: ChangeQuery,
) -> Result<Answer, NotTaken>
    ensures told { IfOk result (IsToldBy (option_copied effective.entry) rows.now.groups change query (seen found.now)) }
    ensures cause { IfErr result (λ e. (e ≡ Memory) ⊎ ((e ≡ Damaged) × ((IsSound (seen found.now) → ⊥) ⊎ LacksFile (option_copied effective.entry) query))) }
{
    let file = change_file(alloc, found)?;
    answer_by(alloc, effective, &rows.groups, change, &file, query)
}

/// What a question about a change is told.
fn answer_by(
    alloc: Global,
    effective: Option<&ProjectFile>,
    groups: &GroupTables,
    change: ChangeNo,
    file: &ChangeFile,
    query: ChangeQuery,
) -> Result<Answer, NotTaken>
    ensures told { IfOk result (IsToldBy (option_copied effective.entry) groups.now change query (seen file.now.rows.now)) }
    ensures cause { IfErr result (λ e. (e ≡ Memory) ⊎ ((e ≡ Damaged) × LacksFile (option_copied effective.entry) query)) }
{
    let rows = file.rows();
    match query {
        ChangeQuery::Change => Ok(Answer::Shown(shown_change(alloc, change, rows)?)),
        ChangeQuery::Requirements => match effective {
            Some(project) => Ok(standing(alloc, project, groups, rows)?),
            None => Err(NotTaken::Damaged),
        },
        ChangeQuery::Threads => Ok(Answer::Threads(threads(alloc, &rows.comments)?)),
        ChangeQuery::Attention => Ok(Answer::Attention(shown_attention(alloc, rows)?)),
    }
}

/// How the submit requirements of a project stand for a change.
fn standing(
    alloc: Global,
    project: &ProjectFile,
    groups: &GroupTables,
    rows: &ChangeRows,
) -> Result<Answer, AllocError>
    ensures { IfOk result (λ told. (n : ℕ) → IsToldOf (setting_by project.now groups.now) n Requirements (seen rows.now) told) }
{
    let shown = statuses(alloc, rows, project, groups)?;
    Ok(Answer::Requirements(shown))
}
