//! The routes that lines spell: the name of a delivery, and the members of its line that say where it goes.
ghost use Rattle.std.specs.Prelude.{◌≡◌};
ghost use Rattle.{serde_json.specs.View.view, review_names.specs.Bad.Gives};
ghost use Rattle.review_json.specs.Line.{change_query_named, change_route_named, route_of_change, route_named};

use review_json_routes::{ChangeRoute, Route, account_at, change_at, name_at, patch_in};
use review_names::Bad;
use review_words::ChangeQuery;
use serde_json::Value;
use std::alloc::Global;

/// What a question of the name asks of a change, or none where no question has the name.
#[tactic(auto, unfolding(crate::specs::Line::change_query_named))]
fn change_query_named(name: &str) -> Option<ChangeQuery>
    ensures { result ≡ change_query_named name.now }
{
    match name {
        "Change" => Some(ChangeQuery::Change),
        "Requirements" => Some(ChangeQuery::Requirements),
        "Threads" => Some(ChangeQuery::Threads),
        "Attention" => Some(ChangeQuery::Attention),
        _ => None,
    }
}

/// What a command of the name asks of a change: `patch_set` in the line of a review, `account` in that of a removal.
#[tactic(auto, unfolding(crate::specs::Line::change_route_named))]
fn change_route_named(name: &str, line: &Value) -> Result<ChangeRoute, Bad>
    ensures { Gives result (change_route_named name.now (view line.now)) }
{
    match name {
        "Upload" => Ok(ChangeRoute::Upload),
        "Review" => {
            let patch = patch_in(line)?;
            Ok(ChangeRoute::Review { patch })
        }
        "AddReviewer" => Ok(ChangeRoute::AddReviewer),
        "RemoveReviewer" => {
            let account = account_at("account", line)?;
            Ok(ChangeRoute::RemoveReviewer { account })
        }
        "SetWip" => Ok(ChangeRoute::SetWip),
        "SetReady" => Ok(ChangeRoute::SetReady),
        "Abandon" => Ok(ChangeRoute::Abandon),
        "Restore" => Ok(ChangeRoute::Restore),
        "AddAttention" => Ok(ChangeRoute::AddAttention),
        "RemoveAttention" => {
            let account = account_at("account", line)?;
            Ok(ChangeRoute::RemoveAttention { account })
        }
        _ => Err(Bad::Form),
    }
}

/// What is asked of a change under a name: `change` in the line.
#[tactic(auto, unfolding(crate::specs::Line::route_of_change))]
fn route_of_change(name: &str, line: &Value) -> Result<Route, Bad>
    ensures { Gives result (route_of_change name.now (view line.now)) }
{
    let change = change_at("change", line)?;
    if let Some(query) = change_query_named(name) {
        return Ok(Route::AskChange { change, query });
    }
    let asked = change_route_named(name, line)?;
    Ok(Route::OnChange { change, asked })
}

/// The route of a delivery's name. Form exactly where no delivery has the name, or the line lacks a member of its route.
#[tactic(auto, unfolding(crate::specs::Line::route_named))]
pub fn route_named(alloc: Global, name: &str, line: &Value) -> Result<Route, Bad>
    ensures { Gives result (route_named name.now (view line.now)) }
{
    match name {
        "CreateAccount" => Ok(Route::CreateAccount),
        "PutGroup" => {
            let group = name_at(alloc, "group", line)?;
            Ok(Route::PutGroup { group })
        }
        "PutProject" => {
            let project = name_at(alloc, "project", line)?;
            Ok(Route::PutProject { project })
        }
        "RecordBase" => {
            let project = name_at(alloc, "project", line)?;
            let branch = name_at(alloc, "branch", line)?;
            Ok(Route::RecordBase { project, branch })
        }
        "CreateChange" => Ok(Route::CreateChange),
        "Submit" => {
            let change = change_at("change", line)?;
            Ok(Route::Submit { change })
        }
        "CloseEpoch" => Ok(Route::CloseEpoch),
        "Branch" => {
            let project = name_at(alloc, "project", line)?;
            let branch = name_at(alloc, "branch", line)?;
            Ok(Route::Branch { project, branch })
        }
        _ => route_of_change(name, line),
    }
}
