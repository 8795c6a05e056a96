//! The bodies of reviews, and the patch sets that they are of.
ghost use Rattle.std.specs.Prelude.{◌≡◌, is_some};
ghost use Rattle.{serde_json.specs.Find.get, serde_json.specs.View.view, review_names.specs.Bad.Gives};
ghost use Rattle.review_json_routes.specs.Reviews.{patch_in, message_in, has_refused};

use review_names::Bad;
use review_words::{Message, PatchNo};
use serde_json::Value;
use std::alloc::Global;

/// The patch set of a line: `patch_set`, its number, or the text `current`, for which it is none.
#[tactic(auto, unfolding(crate::specs::Reviews::patch_in, crate::specs::Reviews::patch_of))]
pub fn patch_in(line: &Value) -> Result<Option<PatchNo>, Bad>
    ensures { Gives result (patch_in (view line.now)) }
{
    let value = line.get("patch_set").ok_or(Bad::Form)?;
    if matches!(value.as_str(), Some("current")) {
        return Ok(None);
    }
    let number = value.as_u64().ok_or(Bad::Form)?;
    let patch = PatchNo::from_number(number).ok_or(Bad::Form)?;
    Ok(Some(patch))
}

/// The message of a review: `message`, empty where it is absent.
#[tactic(auto, unfolding(crate::specs::Reviews::message_in, review_names::specs::Forms::is_message))]
pub fn message_in(alloc: Global, body: &Value) -> Result<Message, Bad>
    ensures { Gives result (message_in (view body.now)) }
{
    match body.get("message") {
        Some(message) => Message::read(alloc, message.as_str().ok_or(Bad::Form)?),
        None => Message::read(alloc, ""),
    }
}

fn has(key: &str, value: &Value) -> bool
    ensures { result ≡ is_some (get key.now (view value.now)) }
{
    value.get(key).is_some()
}

/// Whether a body has a member that Gerrit takes in a review and the desk does not, whatever its
/// value: `ready`, `work_in_progress`, `reviewers`, `on_behalf_of`, `add_to_attention_set`,
/// `remove_from_attention_set`, `ignore_automatic_attention_set_rules`.
#[tactic(auto, unfolding(crate::specs::Reviews::has_refused))]
pub fn has_refused(body: &Value) -> bool
    ensures { result ≡ has_refused (view body.now) }
{
    has("ready", body)
        || has("work_in_progress", body)
        || has("reviewers", body)
        || has("on_behalf_of", body)
        || has("add_to_attention_set", body)
        || has("remove_from_attention_set", body)
        || has("ignore_automatic_attention_set_rules", body)
}
