//! What is asked first.
ghost use Rattle.std.specs.Prelude.{◌≡◌, ◌++◌, ◌∷◌, [], IfOk, OnOk, map};
ghost use Rattle.review_words.specs.declared.command.Command.TheVariants.{RecordBase, CreateChange};
ghost use Rattle.review_machine_rows.specs.Steps.{asks_admin, caller_wants, command_wants, is_for_who_runs, named_in, query_wants, first_wants, topic_of};
ghost use Rattle.review_machine_rows.specs.declared.rows.Want.TheVariants as want;

use crate::changes::{push_commit, push_patch};
use review_machine_accounts::branch_of;
use review_machine_rows::{Counted, Matter, MemberKey, Want};
use review_words::{
    AccountNo, BranchName, ChangeCommand, Command, CommitName, NewChange, ProjectName, Query,
    administrators,
};
use std::alloc::{AllocError, Global};

/// What a command or a question asks first. Of a command these are: how many requests were ever stored, the caller's account and those that it
/// names, whether the caller is an administrator where that decides, and what it is to change or the change that it names; of a question the caller's
/// account, and the change that it names, or whether the project is there, the bases of the branch, and what joined it.
pub fn first_wants(
    alloc: Global,
    caller: AccountNo,
    matter: Matter<'_>,
) -> Result<Vec<Want>, AllocError>
    ensures { IfOk result (λ wants. wants.items ≡ first_wants caller (topic_of matter.entry)) }
{
    match matter {
        Matter::Command(command) => command_wants(alloc, caller, command),
        Matter::Query(query) => query_wants(alloc, caller, query),
    }
}

// Whether a command is judged by whether the caller is an administrator.
fn asks_admin(command: &Command) -> bool
    ensures { result ≡ asks_admin command.now }
{
    match command {
        Command::CreateChange(_) | Command::Submit { change: _ } => false,
        Command::OnChange { change: _, command } => is_for_who_runs(command),
        _ => true,
    }
}

// Whether a request on a change is judged by who runs the change.
fn is_for_who_runs(command: &ChangeCommand) -> bool
    ensures { result ≡ is_for_who_runs command.now }
{
    match command {
        ChangeCommand::Upload(_)
        | ChangeCommand::Review(_)
        | ChangeCommand::AddReviewer { .. }
        | ChangeCommand::AddAttention { .. }
        | ChangeCommand::RemoveAttention { .. } => false,
        _ => true,
    }
}

// How many requests were ever stored, whether the caller is an account, and where the command is judged by that, an administrator.
fn caller_wants(
    alloc: Global,
    caller: AccountNo,
    command: &Command,
) -> Result<Vec<Want>, AllocError>
    ensures { IfOk result (λ wants. wants.items ≡ caller_wants caller command.now) }
{
    // Room for all that a new change asks.
    let mut wants = Vec::with_capacity(alloc, 10)?;
    wants.push(Want::Requests)?;
    wants.push(Want::Account(caller))?;
    if asks_admin(command) {
        wants.push(Want::Member(MemberKey {
            group: administrators(alloc)?,
            account: caller,
        }))?;
    }
    Ok(wants)
}

fn command_wants(
    alloc: Global,
    caller: AccountNo,
    command: &Command,
) -> Result<Vec<Want>, AllocError>
    ensures { IfOk result (λ wants. wants.items ≡ caller_wants caller command.now ++ command_wants command.now) }
{
    let mut wants = caller_wants(alloc, caller, command)?;
    push_command(&mut wants, command)?;
    Ok(wants)
}

// Adds what a command asks beside its caller.
fn push_command(wants: &mut Vec<Want>, command: &Command) -> Result<(), AllocError>
    ensures { OnOk result (wants.new.items ≡ wants.old.items ++ command_wants command.now) }
{
    match command {
        Command::CreateAccount { name } => {
            wants.push(Want::AccountNamed(name.copy()?))?;
            wants.push(Want::LastAccount)?;
        }
        Command::PutGroup { group, members } => {
            wants.push(Want::Group(group.copy()?))?;
            push_accounts(wants, members.as_slice())?;
        }
        Command::PutProject { project, file: _ } => {
            wants.push(Want::File(project.copy()?))?;
            wants.push(Want::Room(Counted::Projects))?;
        }
        Command::RecordBase {
            project,
            branch,
            commit,
        } => push_base(wants, project, branch, commit)?,
        Command::CreateChange(new) => push_new(wants, new)?,
        Command::OnChange { change, command } => {
            wants.push(Want::Change(*change))?;
            push_named(wants, command)?;
        }
        Command::Submit { change } => wants.push(Want::Change(*change))?,
        Command::CloseEpoch { epoch: _ } => wants.push(Want::LeastEpoch)?,
    }
    Ok(())
}

/// Adds whether the account that a request on a change names is there.
fn push_named(wants: &mut Vec<Want>, command: &ChangeCommand) -> Result<(), AllocError>
    ensures { OnOk result (wants.new.items ≡ wants.old.items ++ map want.Account (named_in command.now)) }
{
    match command {
        ChangeCommand::AddReviewer { account, role: _ } => wants.push(Want::Account(*account))?,
        ChangeCommand::RemoveReviewer { account } => wants.push(Want::Account(*account))?,
        ChangeCommand::AddAttention { account, reason: _ } => {
            wants.push(Want::Account(*account))?;
        }
        ChangeCommand::RemoveAttention { account, reason: _ } => {
            wants.push(Want::Account(*account))?;
        }
        _ => {}
    }
    Ok(())
}

#[tactic(auto, using(crate::proofs::Going::accounts_more))]
fn push_accounts(wants: &mut Vec<Want>, numbers: &[AccountNo]) -> Result<(), AllocError>
    ensures { OnOk result (wants.new.items ≡ wants.old.items ++ map want.Account numbers.now) }
{
    for number in numbers {
        wants.push(Want::Account(*number))?;
    }
    Ok(())
}

fn push_base(
    wants: &mut Vec<Want>,
    project: &ProjectName,
    branch: &BranchName,
    commit: &CommitName,
) -> Result<(), AllocError>
    ensures { OnOk result (wants.new.items ≡ wants.old.items ++ command_wants (RecordBase project.now branch.now commit.now)) }
{
    wants.push(Want::Project(project.copy()?))?;
    push_commit(wants, project, branch, commit)?;
    wants.push(Want::Room(Counted::BasesOf(project.copy()?)))?;
    wants.push(Want::LastPlace(branch_of(project, branch)?))?;
    Ok(())
}

fn push_new(wants: &mut Vec<Want>, new: &NewChange) -> Result<(), AllocError>
    ensures { OnOk result (wants.new.items ≡ wants.old.items ++ command_wants (CreateChange new.now)) }
{
    wants.push(Want::LastPlace(branch_of(&new.project, &new.branch)?))?;
    wants.push(Want::LastChange)?;
    push_patch(wants, &new.project, &new.branch, &new.commit, &new.parent)
}

fn query_wants(alloc: Global, caller: AccountNo, query: &Query) -> Result<Vec<Want>, AllocError>
    ensures { IfOk result (λ wants. wants.items ≡ query_wants caller query.now) }
{
    let mut wants = Vec::new(alloc);
    wants.push(Want::Account(caller))?;
    match query {
        Query::Branch { project, branch } => {
            wants.push(Want::Project(project.copy()?))?;
            wants.push(Want::Bases(branch_of(project, branch)?))?;
            wants.push(Want::Joined(branch_of(project, branch)?))?;
        }
        Query::OnChange { change, query: _ } => wants.push(Want::Change(*change))?,
    }
    Ok(wants)
}
