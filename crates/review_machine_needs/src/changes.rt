//! What is asked by the change that a command or a question names.
ghost use Rattle.std.specs.Prelude.{◌≡◌, ◌++◌, ◌∷◌, [], IfOk, OnOk};
ghost use Rattle.review_core_rules.specs.Seen.{seen};
ghost use Rattle.review_machine_rows.specs.Known.{known, change_in};
ghost use Rattle.review_machine_rows.specs.Steps.{change_wants, commit_wants, given_wants, patch_wants, question_wants, request_wants, submit_wants, topic_of, wants_by};
ghost use Rattle.review_machine_rows.specs.declared.rows.Want.TheVariants as want;

use review_core_rules::{ChangeRows, Header};
use review_machine_accounts::{base_of, branch_of};
use review_machine_rows::{Matter, Rows, Want};
use review_words::{
    BranchName, ChangeCommand, ChangeNo, ChangeQuery, Command, CommitName, Labels, NewPatch,
    ProjectName, Query,
};
use std::alloc::{AllocError, Global};

/// What a command or a question asks by the change that it names, once that is known.
pub fn change_wants(alloc: Global, rows: &Rows, matter: Matter<'_>) -> Result<Vec<Want>, AllocError>
    ensures { IfOk result (λ wants. wants.items ≡ change_wants rows.now (topic_of matter.entry)) }
{
    match matter {
        Matter::Command(Command::OnChange { change, command }) => {
            request_wants(alloc, rows, *change, command)
        }
        Matter::Command(Command::Submit { change }) => submit_wants(alloc, rows, *change),
        Matter::Query(Query::OnChange { change, query }) => {
            question_wants(alloc, rows, *change, *query)
        }
        _ => Ok(Vec::new(alloc)),
    }
}

fn request_wants(
    alloc: Global,
    rows: &Rows,
    change: ChangeNo,
    command: &ChangeCommand,
) -> Result<Vec<Want>, AllocError>
    ensures { IfOk result (λ wants. wants.items ≡ wants_by (request_wants command.now) (change_in (known rows.now (want.Change change)))) }
{
    match rows.change(change) {
        Some(found) => wants_of_request(alloc, command, found),
        None => Ok(Vec::new(alloc)),
    }
}

fn wants_of_request(
    alloc: Global,
    command: &ChangeCommand,
    found: &ChangeRows,
) -> Result<Vec<Want>, AllocError>
    ensures { IfOk result (λ wants. wants.items ≡ request_wants command.now (seen found.now)) }
{
    let header = &found.header;
    match command {
        ChangeCommand::Upload(patch) => sent_wants(alloc, header, patch),
        ChangeCommand::Review(review) => given_wants(alloc, &review.labels, &header.project),
        ChangeCommand::Abandon => file_want(alloc, &header.project),
        ChangeCommand::Restore => file_want(alloc, &header.project),
        _ => Ok(Vec::new(alloc)),
    }
}

fn submit_wants(alloc: Global, rows: &Rows, change: ChangeNo) -> Result<Vec<Want>, AllocError>
    ensures { IfOk result (λ wants. wants.items ≡ wants_by submit_wants (change_in (known rows.now (want.Change change)))) }
{
    let Some(found) = rows.change(change) else {
        return Ok(Vec::new(alloc));
    };
    let header = &found.header;
    let mut wants = file_want(alloc, &header.project)?;
    wants.push(Want::LastJoined(branch_of(&header.project, &header.branch)?))?;
    Ok(wants)
}

fn question_wants(
    alloc: Global,
    rows: &Rows,
    change: ChangeNo,
    query: ChangeQuery,
) -> Result<Vec<Want>, AllocError>
    ensures { IfOk result (λ wants. wants.items ≡ wants_by (question_wants query) (change_in (known rows.now (want.Change change)))) }
{
    match rows.change(change) {
        Some(found) => wants_of_question(alloc, query, found),
        None => Ok(Vec::new(alloc)),
    }
}

fn wants_of_question(
    alloc: Global,
    query: ChangeQuery,
    found: &ChangeRows,
) -> Result<Vec<Want>, AllocError>
    ensures { IfOk result (λ wants. wants.items ≡ question_wants query (seen found.now)) }
{
    match query {
        ChangeQuery::Requirements => file_want(alloc, &found.header.project),
        _ => Ok(Vec::new(alloc)),
    }
}

/// The look-up of a project's file alone.
pub fn file_want(alloc: Global, project: &ProjectName) -> Result<Vec<Want>, AllocError>
    ensures { IfOk result (λ wants. wants.items ≡ want.File project.now ∷ []) }
{
    let mut wants = Vec::new(alloc);
    wants.push(Want::File(project.copy()?))?;
    Ok(wants)
}

fn sent_wants(alloc: Global, header: &Header, patch: &NewPatch) -> Result<Vec<Want>, AllocError>
    ensures { IfOk result (λ wants. wants.items ≡ patch_wants header.now.project header.now.branch patch.now.commit patch.now.parent) }
{
    let mut wants = Vec::new(alloc);
    push_patch(
        &mut wants,
        &header.project,
        &header.branch,
        &patch.commit,
        &patch.parent,
    )?;
    Ok(wants)
}

fn given_wants(
    alloc: Global,
    labels: &Labels,
    project: &ProjectName,
) -> Result<Vec<Want>, AllocError>
    ensures { IfOk result (λ wants. wants.items ≡ given_wants labels.now project.now) }
{
    if labels.as_slice().is_empty() {
        return Ok(Vec::new(alloc));
    }
    file_want(alloc, project)
}

/// Adds what a new patch set asks of the project and the branch that its change is for.
pub fn push_patch(
    wants: &mut Vec<Want>,
    project: &ProjectName,
    branch: &BranchName,
    commit: &CommitName,
    parent: &CommitName,
) -> Result<(), AllocError>
    ensures { OnOk result (wants.new.items ≡ wants.old.items ++ patch_wants project.now branch.now commit.now parent.now) }
{
    wants.push(Want::File(project.copy()?))?;
    push_commit(wants, project, branch, commit)?;
    push_commit(wants, project, branch, parent)?;
    Ok(())
}

/// Adds what is asked of a commit: whether it is known in a branch.
pub fn push_commit(
    wants: &mut Vec<Want>,
    project: &ProjectName,
    branch: &BranchName,
    commit: &CommitName,
) -> Result<(), AllocError>
    ensures { OnOk result (wants.new.items ≡ wants.old.items ++ commit_wants project.now branch.now commit.now) }
{
    wants.push(Want::Base(base_of(project, branch, commit)?))?;
    wants.push(Want::ChangeOf(base_of(project, branch, commit)?))?;
    Ok(())
}
