//! The comments that a review makes.
ghost use Rattle.std.specs.Prelude.{◌≡◌, ◌++◌, Some, None, Err, OnOk, option_map};
ghost use Rattle.{serde_json.specs.View.view, serde_json.specs.View.items_view, review_names.specs.Bad.Gives};
ghost use Rattle.review_json_routes.specs.Reviews.{line_in, answered_in, comment_of, comments_on, comments_at, comments_in};

use crate::parts::{flag_at, name_at};
use review_names::Bad;
use review_words::{CommentNo, Comments, NewComment, Place};
use serde_json::Value;
use std::alloc::Global;

/// The line that is commented on: `line`, a whole number from 0 to 1,000,000,000, 0 where it is absent.
#[tactic(auto, unfolding(crate::specs::Reviews::line_in))]
pub fn line_in(comment: &Value) -> Result<u32, Bad>
    ensures { Gives result (line_in (view comment.now)) }
{
    match comment.get("line").map(Value::as_u64) {
        Some(Some(line)) if line <= 1_000_000_000 => Ok(line as u32),
        Some(_) => Err(Bad::Form),
        None => Ok(0),
    }
}

/// The comment that is answered: `in_reply_to`, its number, if it is there.
#[tactic(auto, unfolding(crate::specs::Reviews::answered_in))]
pub fn answered_in(comment: &Value) -> Result<Option<CommentNo>, Bad>
    ensures { Gives result (answered_in (view comment.now)) }
{
    let Some(number) = comment.get("in_reply_to") else {
        return Ok(None);
    };
    let number = number.as_u64().and_then(CommentNo::from_number);
    Ok(Some(number.ok_or(Bad::Form)?))
}

/// A comment on a place: `message`, and `line`, `unresolved` and `in_reply_to`, which may be absent.
#[tactic(auto, unfolding(crate::specs::Reviews::comment_of))]
pub fn comment_of(alloc: Global, place: &Place, comment: &Value) -> Result<NewComment, Bad>
    ensures { Gives result (comment_of place.now (view comment.now)) }
{
    let path = place.copy()?;
    let line = line_in(comment)?;
    let message = name_at(alloc, "message", comment)?;
    let unresolved = flag_at("unresolved", comment)?;
    let in_reply_to = answered_in(comment)?;
    Ok(NewComment {
        path,
        line,
        message,
        unresolved,
        in_reply_to,
    })
}

/// Adds the comments of a list on a place.
fn comments_on(
    alloc: Global,
    comments: &mut Vec<NewComment>,
    place: &Place,
    list: &Vec<Value>,
) -> Result<(), Bad>
    ensures ok { OnOk result (option_map (λ more. comments.old.items ++ more) (comments_on place.now (items_view list.now.items)) ≡ Some comments.new.items) }
    ensures form { result ≡ Err Bad.Form → comments_on place.now (items_view list.now.items) ≡ None }
{
    for value in list.iter() {
        let comment = comment_of(alloc, place, value)?;
        comments.push(comment)?;
    }
    Ok(())
}

/// Adds the comments of a member, whose key is their place.
#[tactic(auto, unfolding(crate::specs::Reviews::comments_at))]
fn comments_at(
    alloc: Global,
    comments: &mut Vec<NewComment>,
    key: &str,
    value: &Value,
) -> Result<(), Bad>
    ensures ok { OnOk result (option_map (λ more. comments.old.items ++ more) (comments_at key.now (view value.now)) ≡ Some comments.new.items) }
    ensures form { result ≡ Err Bad.Form → comments_at key.now (view value.now) ≡ None }
{
    let place = Place::read(alloc, key)?;
    let Some(list) = value.as_array() else {
        return Err(Bad::Form);
    };
    comments_on(alloc, comments, &place, list)
}

/// The comments that a review makes: `comments`, an object from places to lists of comments,
/// which may be absent. They come in the order of the bytes of their places, those of one place
/// in the order of its list.
#[tactic(auto, unfolding(crate::specs::Reviews::comments_in, crate::specs::Reviews::comments_of))]
pub fn comments_in(alloc: Global, body: &Value) -> Result<Comments, Bad>
    ensures { Gives result (comments_in (view body.now)) }
{
    let mut comments = Vec::new(alloc);
    let Some(places) = body.get("comments") else {
        return Comments::from_vec(comments);
    };
    for (key, value) in places.as_object().ok_or(Bad::Form)?.iter() {
        comments_at(alloc, &mut comments, key.as_str(), value)?;
    }
    Comments::from_vec(comments)
}
