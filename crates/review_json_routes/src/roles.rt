//! The accounts that bodies name, and the roles that they give.
ghost use Rattle.std.specs.Prelude.{◌≡◌};
ghost use Rattle.{serde_json.specs.View.view, review_names.specs.Bad.Gives};
ghost use Rattle.review_json_routes.specs.Commands.{account_named, account_named_at, role_in};

use crate::parts::account_of;
use review_names::{Bad, read_account};
use review_words::{AccountNo, Role};
use serde_json::Value;

/// The account that a value names, by its number or by the number's decimal text.
fn account_named(value: &Value) -> Option<AccountNo>
    ensures { result ≡ account_named (view value.now) }
{
    match value.as_str() {
        Some(text) => read_account(text.as_bytes()),
        None => account_of(value),
    }
}

/// The account that the member `key` of a body names, by a whole number or by the number's decimal
/// text.
#[tactic(auto, unfolding(crate::specs::Commands::account_named_at))]
pub fn account_named_at(key: &str, body: &Value) -> Result<AccountNo, Bad>
    ensures { Gives result (account_named_at key.now (view body.now)) }
{
    body.get(key).and_then(account_named).ok_or(Bad::Form)
}

/// The role that a body gives: `state`, the name of one, that of a reviewer where it is absent.
#[tactic(auto, unfolding(crate::specs::Commands::role_in))]
pub fn role_in(body: &Value) -> Result<Role, Bad>
    ensures { Gives result (role_in (view body.now)) }
{
    match body.get("state") {
        Some(state) => state.as_str().and_then(Role::from_name).ok_or(Bad::Form),
        None => Ok(Role::Reviewer),
    }
}
