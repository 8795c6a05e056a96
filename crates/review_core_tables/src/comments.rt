//! The comments of a change.
ghost use Rattle.std.specs.Prelude.{◌≡◌, ◌++◌, ◌∷◌, [], List, map, IfOk, OnOk, option_copied};
ghost use Rattle.review_core_rules.specs.Change.{answered, message_of, said, stored_as};
ghost use Rattle.review_core_rules.specs.Change as change;

use review_core_rules::{Comment, CommentRow};
use review_words::{AccountNo, CommentNo, Message, NewComment, PatchNo, Review, patch_set_level};
use std::alloc::{AllocError, Global};

/// The item of a number, counted from 1.
pub fn of_number<T>(items: &[T], number: CommentNo) -> Option<&T>
    ensures { option_copied result ≡ change.of_number items.now number }
{
    items.get(number.get() as usize - 1)
}

/// The stored comment that a new one answers.
pub fn answered<'c>(stored: &'c [Comment], new: &NewComment) -> Option<&'c Comment>
    ensures { option_copied result ≡ answered stored.now new.now }
{
    match new.in_reply_to {
        Some(number) => of_number(stored, number),
        None => None,
    }
}

/// Where and by whom new comments are made.
#[derive(Drop)]
pub struct Origin {
    pub patch: PatchNo,
    pub author: AccountNo,
    pub request: u64,
}

fn stored_as(
    alloc: Global,
    stored: &[Comment],
    origin: &Origin,
    new: &NewComment,
) -> Result<Comment, AllocError>
    ensures { IfOk result (λ row. row ≡ stored_as stored.now origin.now.patch origin.now.author origin.now.request new.now) }
{
    let path = new.path.copy()?;
    let message = new.message.copy()?;
    let unresolved = match answered(stored, new) {
        Some(comment) => comment.row().unresolved,
        None => false,
    };
    let row = CommentRow {
        patch: origin.patch,
        path,
        line: new.line,
        author: origin.author,
        message,
        unresolved: new.unresolved.unwrap_or(unresolved),
        answers: new.in_reply_to,
        request: origin.request,
    };
    Comment::new(alloc, row)
}

/// Stores a new comment after those that stand in the rows.
fn store_one(
    alloc: Global,
    stored: &[Comment],
    origin: &Origin,
    rows: &mut Vec<Comment>,
    new: &NewComment,
) -> Result<(), AllocError>
    ensures { OnOk result (rows.new.items ≡ rows.old.items ++ (stored_as stored.now origin.now.patch origin.now.author origin.now.request new.now ∷ [])) }
{
    let row = stored_as(alloc, stored, origin, new)?;
    rows.push(row)?;
    Ok(())
}

fn store_all(
    alloc: Global,
    stored: &[Comment],
    origin: &Origin,
    rows: &mut Vec<Comment>,
    new: &[NewComment],
) -> Result<(), AllocError>
    ensures { OnOk result (rows.new.items ≡ rows.old.items ++ map (stored_as stored.now origin.now.patch origin.now.author origin.now.request) new.now) }
{
    for comment in new {
        store_one(alloc, stored, origin, rows, comment)?;
    }
    Ok(())
}

/// The new comments of a review, as they are stored.
pub fn new_comments(
    alloc: Global,
    stored: &[Comment],
    origin: &Origin,
    review: &Review,
) -> Result<Vec<Comment>, AllocError>
    ensures { IfOk result (λ v. v.items ≡ map (stored_as stored.now origin.now.patch origin.now.author origin.now.request) (said review.now)) }
{
    let mut said = Vec::new(alloc);
    add_message(alloc, &mut said, &review.message)?;
    let mut rows = Vec::new(alloc);
    store_all(alloc, stored, origin, &mut rows, &said)?;
    store_all(alloc, stored, origin, &mut rows, review.comments.as_slice())?;
    Ok(rows)
}

fn add_message(
    alloc: Global,
    said: &mut Vec<NewComment>,
    message: &Message,
) -> Result<(), AllocError>
    ensures { OnOk result (said.new.items ≡ said.old.items ++ message_of message.now) }
{
    if !message.as_str().is_empty() {
        said.push(NewComment {
            path: patch_set_level(alloc)?,
            line: 0,
            message: message.copy()?,
            unresolved: Some(false),
            in_reply_to: None,
        })?;
    }
    Ok(())
}
