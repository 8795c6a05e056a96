//! The answer to a question about a branch.
ghost use Rattle.std.specs.Prelude.{◌≡◌, ◌++◌, List, [], Option, IfOk, IfErr, OnOk};
ghost use Rattle.review_words.specs.History.{Entry};
ghost use Rattle.review_words.specs.declared.{command.Query.TheVariants.Branch, reply.NotTaken.TheVariants.Memory};
ghost use Rattle.review_machine_rows.specs.{Answer.IsHistory, Changes.Reading, Decisions.IsDoneOrRefused, Files.File};
ghost use Rattle.review_machine_rows.specs.Known.{known, commits_of, joined_of};
ghost use Rattle.review_machine_rows.specs.{Questions.IsQueryAnswerBy, Steps.OfQuery, View.AreEnough};
ghost use Rattle.review_machine_rows.specs.declared.rows.Want.TheVariants as want;

use review_machine_accounts::{branch_of, is_asker, is_project};
use review_machine_rows::{BranchKey, Rows, Want};
use review_words::{
    AccountNo, Answer, Bases, BranchName, JoinedChange, Listed, NotTaken, ProjectName, Refusal,
    Reply,
};
use std::alloc::{AllocError, Global};

/// The bases of a branch and the changes that joined it. Refused for an unknown caller, a project that isn't there, or a branch without bases, in
/// this order; an error is want of memory.
pub fn show_branch(
    alloc: Global,
    rows: &Rows,
    caller: AccountNo,
    project: &ProjectName,
    branch: &BranchName,
) -> Result<Reply, NotTaken>
    ensures shown { IfOk result (λ r. (reading : Reading) (effective : Option File) (h : List Entry) → IsHistory h → AreEnough reading h caller (OfQuery (Branch project.now branch.now)) effective rows.now → IsQueryAnswerBy reading h caller (Branch project.now branch.now) r) }
    ensures answered { IfOk result IsDoneOrRefused }
    ensures cause { IfErr result (λ e. e ≡ Memory) }
{
    let known = is_asker(rows, caller);
    if !known {
        return Ok(Reply::Refused(Refusal::UnknownCaller));
    }
    let there = is_project(rows, project)?;
    if !there {
        return Ok(Reply::Refused(Refusal::NoProject));
    }
    let bases = known_bases(alloc, rows, branch_of(project, branch)?)?;
    if bases.is_empty() {
        return Ok(Reply::Refused(Refusal::NoBranch));
    }
    let joined = known_joined(alloc, rows, branch_of(project, branch)?)?;
    Ok(Reply::Done(Answer::Branch { bases, joined }))
}

// The changes that joined a branch, as they are known.
fn known_joined(
    alloc: Global,
    rows: &Rows,
    branch: BranchKey,
) -> Result<Listed<JoinedChange>, AllocError>
    ensures { IfOk result (λ js. js ≡ joined_of (known rows.now (want.Joined branch))) }
{
    let want = Want::Joined(branch);
    let joined = match rows.joined(&want) {
        Some(known) => copies_of(alloc, known.as_slice()),
        None => Ok(Vec::new(alloc)),
    };
    drop(want);
    Ok(Listed::from_vec(joined?))
}

fn copies_of(alloc: Global, known: &[JoinedChange]) -> Result<Vec<JoinedChange>, AllocError>
    ensures { IfOk result (λ joined. joined.items ≡ known.now) }
{
    let mut joined = Vec::new(alloc);
    for one in known {
        joined.push(JoinedChange {
            change: one.change,
            commit: one.commit.copy()?,
        })?;
    }
    Ok(joined)
}

// The bases of a branch, as they are known.
fn known_bases(alloc: Global, rows: &Rows, branch: BranchKey) -> Result<Bases, AllocError>
    ensures { IfOk result (λ b. b ≡ commits_of (known rows.now (want.Bases branch))) }
{
    let want = Want::Bases(branch);
    let bases = match rows.bases(&want) {
        Some(bases) => bases.copy(alloc),
        None => Ok(Bases::new(alloc)),
    };
    drop(want);
    bases
}
