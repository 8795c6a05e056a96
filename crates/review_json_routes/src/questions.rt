//! Which routes are questions, and which need a body.
ghost use Rattle.std.specs.Prelude.{◌≡◌, is_none};
ghost use Rattle.{serde_json.specs.Data.object, serde_json.specs.Data.no_members, review_names.specs.Bad.Gives};
ghost use Rattle.review_json_routes.specs.Commands.{change_command_in, query_of, is_question, needs_body};

use crate::route::{ChangeRoute, Route};
use review_names::Bad;
use review_words::Query;

/// The question that a route is. Form exactly where it is none.
pub fn query_of(route: &Route) -> Result<Query, Bad>
    ensures { Gives result (query_of route.now) }
{
    match route {
        Route::Branch { project, branch } => {
            let project = project.copy()?;
            let branch = branch.copy()?;
            Ok(Query::Branch { project, branch })
        }
        Route::AskChange { change, query } => Ok(Query::OnChange {
            change: *change,
            query: *query,
        }),
        _ => Err(Bad::Form),
    }
}

/// Whether a route is a question, which has no identity and no body.
pub fn is_question(route: &Route) -> bool
    ensures { result ≡ is_question route.now }
{
    matches!(route, Route::Branch { .. } | Route::AskChange { .. })
}

#[tactic(auto, unfolding(crate::specs::Commands::change_command_in, crate::specs::Parts::name_at, crate::specs::Parts::text_at, crate::specs::Commands::new_patch, crate::specs::Reviews::has_refused, crate::specs::Reviews::said, crate::specs::Reviews::message_in, crate::specs::Reviews::labels_in, crate::specs::Reviews::comments_in, crate::specs::Commands::account_named_at))]
fn needs_members(asked: ChangeRoute) -> bool
    ensures { result ≡ is_none (change_command_in asked (object no_members)) }
{
    match asked {
        ChangeRoute::Upload
        | ChangeRoute::AddReviewer
        | ChangeRoute::AddAttention
        | ChangeRoute::RemoveAttention { .. } => true,
        ChangeRoute::Review { .. }
        | ChangeRoute::RemoveReviewer { .. }
        | ChangeRoute::SetWip
        | ChangeRoute::SetReady
        | ChangeRoute::Abandon
        | ChangeRoute::Restore => false,
    }
}

/// Whether a route needs a body: it is no question, and an object without members completes it to no command. The body of any
/// other may be empty or absent.
#[tactic(auto, unfolding(crate::specs::Commands::command_in, crate::specs::Parts::name_at, crate::specs::Parts::text_at, crate::specs::Parts::members_at, crate::specs::Parts::epoch_at, crate::specs::Commands::new_change))]
pub fn needs_body(route: &Route) -> bool
    ensures { result ≡ needs_body route.now }
{
    match route {
        Route::CreateAccount
        | Route::PutGroup { .. }
        | Route::PutProject { .. }
        | Route::RecordBase { .. }
        | Route::CreateChange
        | Route::CloseEpoch => true,
        Route::OnChange { asked, .. } => needs_members(*asked),
        Route::Submit { .. } | Route::Branch { .. } | Route::AskChange { .. } => false,
    }
}
