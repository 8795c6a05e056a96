//! Reviews.
ghost use Rattle.std.specs.Option.{option_map_or};
ghost use Rattle.std.specs.Prelude.{◌≡◌, Some, ◌≤◌, ◌+◌, nat_le, None, IfOk, length, option_copied, true, false, ◌==◌, unwrap_or};
ghost use Rattle.review_names.specs.Forms.{is_within, most_comments, most_patches};
ghost use Rattle.review_words.specs.{Texts.IsStored, declared.command.ChangeCommand.TheVariants.Review as ReviewOf};
ghost use Rattle.review_file_rules.specs.Inherited.{no_file};
ghost use Rattle.review_core_rules.specs.Change.{after_plain, current, reviewed, said};
ghost use Rattle.review_core_rules.specs.{Seen.seen, Sound.answer_stored, Sound.fits};
ghost use Rattle.review_machine_rows.specs.Answer.{first_refusal, given_checks, review_checks};
ghost use Rattle.review_machine_rows.specs.{Decisions.NamesEachOnce, Desks.facts_by, Rows.HasNoEffect};
ghost use Rattle.review_machine_changes.specs.Deltas.{MakesChange};
ghost use Rattle.review_machine_changes.specs.inner.Done.{IsReviewed, lacks_file, next_numbers};

use crate::edits::turned;
use crate::facts::{is_open, next_request};
use crate::ranges::{are_in_range, has_labels, has_values};
use review_core::ChangeFile;
use review_core_rules::ChangeRows;
use review_file::ProjectFile;
use review_machine_rows::{Delta, Rows};
use review_words::{
    AccountNo, Answer, ChangeNo, CommentNo, CommentNumbers, NewComment, Refusal, Reply, Review,
};
use std::alloc::{AllocError, Global};

/// The first check of the values that a review gives which fails, where one does.
fn given_refusal(
    file: &ProjectFile,
    rows: &Rows,
    caller: AccountNo,
    review: &Review,
    change: &ChangeRows,
) -> Result<Option<Refusal>, AllocError>
    ensures { IfOk result (λ r. r ≡ first_refusal (given_checks (facts_by rows.now (Some file.now)) file.now caller review.now (seen change.now) review.now.labels)) }
{
    let given = review.labels.as_slice();
    if given.is_empty() {
        return Ok(None);
    }
    if !is_open(change.header.state) {
        return Ok(Some(Refusal::Closed));
    }
    if !is_current(review, change) {
        return Ok(Some(Refusal::StalePatchSet));
    }
    if !has_labels(file, given) {
        return Ok(Some(Refusal::NoLabel));
    }
    if !has_values(file, given) {
        return Ok(Some(Refusal::ValueOut));
    }
    if !are_in_range(rows, file, caller, given)? {
        return Ok(Some(Refusal::VoteRestricted));
    }
    Ok(None)
}

/// Whether a review is of the change's current patch set.
fn is_current(review: &Review, change: &ChangeRows) -> bool
    ensures { result ≡ (reviewed review.now (seen change.now) == current (seen change.now)) }
{
    match review.patch {
        Some(patch) => patch.get() as usize == change.patches.len(),
        None => true,
    }
}

/// Whether a number is one of the first so many.
#[tactic(auto, using(crate::proofs::Made::up_to))]
fn is_up_to(number: u32, most: usize) -> bool
    requires { 1 ≤ number }
    ensures { result ≡ is_within most number }
{
    number as usize <= most
}

/// Whether a review is of a patch set that the change has.
fn has_reviewed(review: &Review, change: &ChangeRows) -> bool
    requires { is_within most_patches (current (seen change.now)) ≡ true }
    ensures { result ≡ is_within (current (seen change.now)) (reviewed review.now (seen change.now)) }
{
    match review.patch {
        Some(patch) => is_up_to(patch.get(), change.patches.len()),
        None => true,
    }
}

/// Whether each comment that answers another answers a stored one.
fn answers_stored(stored: usize, comments: &[NewComment]) -> bool
    ensures { result ≡ answer_stored stored comments.now }
{
    comments.iter().all(|comment| is_answer(stored, comment))
}

fn is_answer(stored: usize, comment: &NewComment) -> bool
    ensures { result ≡ option_map_or (λ k. is_within stored k) comment.now.in_reply_to true }
{
    match comment.in_reply_to {
        Some(answered) => is_up_to(answered.get(), stored),
        None => true,
    }
}

/// The first check of the values that a review gives which fails, where one does. Values need a file to be judged by.
fn values_refusal(
    effective: Option<&ProjectFile>,
    rows: &Rows,
    caller: AccountNo,
    review: &Review,
    change: &ChangeRows,
) -> Result<Option<Refusal>, AllocError>
    requires { lacks_file (option_copied effective) (ReviewOf review.now) ≡ false }
    ensures { IfOk result (λ r. r ≡ first_refusal (given_checks (facts_by rows.now (option_copied effective.entry)) (unwrap_or (option_copied effective.entry) no_file) caller review.now (seen change.now) review.now.labels)) }
{
    match effective {
        Some(file) => given_refusal(file, rows, caller, review, change),
        None => Ok(None),
    }
}

/// The first check of a review that fails, where one does: for a patch set that isn't there; where values are given for a closed change, an
/// older patch set, a label that the project's file hasn't, a value that is none of its label's, or one outside the account's range, each over
/// all values; then for an answer to a comment that isn't there, or the last number of a comment given, in this order.
pub fn review_refusal(
    effective: Option<&ProjectFile>,
    rows: &Rows,
    caller: AccountNo,
    review: &Review,
    change: &ChangeRows,
) -> Result<Option<Refusal>, AllocError>
    requires within { is_within most_patches (current (seen change.now)) ≡ true }
    requires judged { lacks_file (option_copied effective) (ReviewOf review.now) ≡ false }
    ensures { IfOk result (λ r. r ≡ first_refusal (review_checks (facts_by rows.now (option_copied effective.entry)) caller review.now (seen change.now))) }
{
    if !has_reviewed(review, change) {
        return Ok(Some(Refusal::NoPatchSet));
    }
    let values = values_refusal(effective, rows, caller, review, change)?;
    if values.is_some() {
        return Ok(values);
    }
    let stored = change.comments.len();
    if !answers_stored(stored, review.comments.as_slice()) {
        return Ok(Some(Refusal::NoComment));
    }
    if !has_room(stored, review) {
        return Ok(Some(Refusal::Limit));
    }
    Ok(None)
}

/// How many comments a review makes: its message is one.
fn said_count(review: &Review) -> usize
    requires { length review.now.comments ≤ 10000 }
    ensures { result ≡ length (said review.now) }
{
    let comments = review.comments.as_slice().len();
    if review.message.as_str().is_empty() {
        comments
    } else {
        comments + 1
    }
}

/// Whether there is a number for each comment that a review makes.
fn has_room(stored: usize, review: &Review) -> bool
    ensures { result ≡ nat_le (stored + length (said review.now)) most_comments }
{
    if review.comments.as_slice().len() > 10_000 {
        return false;
    }
    let said = said_count(review);
    said <= 10_000 && stored <= 10_000 - said
}

/// The numbers of new comments, after those that are stored.
#[tactic(auto, using(crate::proofs::Made::number_within, crate::proofs::Made::numbers_more))]
fn new_numbers(alloc: Global, stored: usize, count: usize) -> Result<CommentNumbers, AllocError>
    requires { stored + count ≤ most_comments }
    ensures { IfOk result (λ n. n ≡ next_numbers stored count) }
{
    let mut numbers = Vec::new(alloc);
    for index in 0..count {
        numbers.push(comment_of(stored + index + 1))?;
    }
    Ok(CommentNumbers::from_vec(numbers))
}

/// The comment of a number.
fn comment_of(number: usize) -> CommentNo
    requires { is_within most_comments number ≡ true }
    ensures { result ≡ number }
{
    match CommentNo::from_number(number as u64) {
        Some(comment) => comment,
        None => unreachable!(),
    }
}

/// The answer to a review that no check refuses, and what it changes: a message, values on labels, comments.
pub fn reviewed(
    alloc: Global,
    rows: &Rows,
    caller: AccountNo,
    change: ChangeNo,
    file: &ChangeFile,
    review: &Review,
) -> Result<(Delta, Reply), AllocError>
    requires { fits (ReviewOf review.now) (seen file.now.rows.now) ≡ true }
    ensures made { IfOk result (λ r. IsReviewed change review.now caller rows.now (seen file.now.rows.now) r.0 r.1) }
    ensures stored { IfOk result (λ r. IsStored r.1) }
    ensures refused { IfOk result (λ r. HasNoEffect r.1 r.0) }
    ensures epoch { IfOk result (λ r. r.0.least_epoch ≡ None) }
    ensures once { IfOk result (λ r. NamesEachOnce r.0) }
{
    let stored = file.rows().comments.len();
    let numbers = new_numbers(alloc, stored, said_count(review))?;
    let edited = file.with_review(alloc, review, caller, next_request(rows))?;
    let delta = turned(alloc, change, edited)?;
    Ok((delta, Reply::Done(Answer::Reviewed(numbers))))
}
