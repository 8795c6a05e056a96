//! The commands that bodies complete routes to.
ghost use Rattle.{serde_json.specs.View.view, review_names.specs.Bad.Gives};
ghost use Rattle.review_json_routes.specs.Commands.{change_command_in, command_in, command_of};
ghost use Rattle.review_json_routes.specs.declared.route.Route.TheVariants.{RecordBase};

use crate::changes::{new_change, new_patch};
use crate::comments::comments_in;
use crate::parts::{epoch_at, file_at, members_at, name_at};
use crate::reviews::{has_refused, message_in};
use crate::roles::{account_named_at, role_in};
use crate::route::{ChangeRoute, Route};
use crate::texts::body_of;
use crate::votes::labels_in;
use review_names::Bad;
use review_words::{BranchName, ChangeCommand, Command, ProjectName, Review};
use serde_json::Value;
use std::alloc::Global;

/// What an object asks of a change. Form exactly where it asks nothing of the kind.
#[tactic(auto, unfolding(crate::specs::Commands::change_command_in, crate::specs::Reviews::said))]
fn change_command_in(alloc: Global, asked: ChangeRoute, body: &Value) -> Result<ChangeCommand, Bad>
    ensures { Gives result (change_command_in asked (view body.now)) }
{
    match asked {
        ChangeRoute::Upload => Ok(ChangeCommand::Upload(new_patch(alloc, body)?)),
        ChangeRoute::Review { patch } => {
            if has_refused(body) {
                return Err(Bad::Form);
            }
            let message = message_in(alloc, body)?;
            let labels = labels_in(alloc, body)?;
            let comments = comments_in(alloc, body)?;
            Ok(ChangeCommand::Review(Review {
                patch,
                message,
                labels,
                comments,
            }))
        }
        ChangeRoute::AddReviewer => {
            let account = account_named_at("reviewer", body)?;
            let role = role_in(body)?;
            Ok(ChangeCommand::AddReviewer { account, role })
        }
        ChangeRoute::RemoveReviewer { account } => Ok(ChangeCommand::RemoveReviewer { account }),
        ChangeRoute::SetWip => Ok(ChangeCommand::SetWip),
        ChangeRoute::SetReady => Ok(ChangeCommand::SetReady),
        ChangeRoute::Abandon => Ok(ChangeCommand::Abandon),
        ChangeRoute::Restore => Ok(ChangeCommand::Restore),
        ChangeRoute::AddAttention => {
            let account = account_named_at("user", body)?;
            let reason = name_at(alloc, "reason", body)?;
            Ok(ChangeCommand::AddAttention { account, reason })
        }
        ChangeRoute::RemoveAttention { account } => {
            let reason = name_at(alloc, "reason", body)?;
            Ok(ChangeCommand::RemoveAttention { account, reason })
        }
    }
}

/// A base of a branch: `commit` in the body.
#[tactic(auto, unfolding(crate::specs::Commands::command_in))]
fn record_base(
    alloc: Global,
    project: &ProjectName,
    branch: &BranchName,
    body: &Value,
) -> Result<Command, Bad>
    ensures { Gives result (command_in (RecordBase project.now branch.now) (view body.now)) }
{
    let commit = name_at(alloc, "commit", body)?;
    let project = project.copy()?;
    let branch = branch.copy()?;
    Ok(Command::RecordBase {
        project,
        branch,
        commit,
    })
}

/// The command that an object completes a route to. Its members that the route has no use for are ignored.
///
/// Form exactly where it completes the route to none, as where the route is a question.
#[tactic(auto, unfolding(crate::specs::Commands::command_in))]
pub fn command_in(alloc: Global, route: &Route, body: &Value) -> Result<Command, Bad>
    ensures { Gives result (command_in route.now (view body.now)) }
{
    match route {
        Route::CreateAccount => {
            let name = name_at(alloc, "name", body)?;
            Ok(Command::CreateAccount { name })
        }
        Route::PutGroup { group } => {
            let members = members_at(alloc, "members", body)?;
            let group = group.copy()?;
            Ok(Command::PutGroup { group, members })
        }
        Route::PutProject { project } => {
            let file = file_at(alloc, "file", body)?;
            let project = project.copy()?;
            Ok(Command::PutProject { project, file })
        }
        Route::RecordBase { project, branch } => record_base(alloc, project, branch, body),
        Route::CreateChange => Ok(Command::CreateChange(new_change(alloc, body)?)),
        Route::OnChange { change, asked } => {
            let change = *change;
            let command = change_command_in(alloc, *asked, body)?;
            Ok(Command::OnChange { change, command })
        }
        Route::Submit { change } => Ok(Command::Submit { change: *change }),
        Route::CloseEpoch => {
            let epoch = epoch_at("epoch", body)?;
            Ok(Command::CloseEpoch { epoch })
        }
        Route::Branch { .. } | Route::AskChange { .. } => Err(Bad::Form),
    }
}

/// The command that the bytes of a body complete a route to. A body is a JSON object, and an empty one stands for `{}`.
///
/// Form exactly where it completes the route to none, as where the route is a question.
#[tactic(auto, unfolding(crate::specs::Commands::command_of))]
pub fn command_of(alloc: Global, route: &Route, body: &[u8]) -> Result<Command, Bad>
    ensures { Gives result (command_of route.now body.now) }
{
    let body = body_of(alloc, body)?;
    command_in(alloc, route, &body)
}
