//! Whom each rule calls.
ghost use Rattle.std.specs.{List.list_any, Option.option_map_or};
ghost use Rattle.std.specs.Prelude.{◌≡◌, ◌==◌, ◌&&◌, ◌||◌, not, ℕ, false, Some, None, IfOk, if◌then◌else◌};
ghost use Rattle.review_core_rules.specs.Change.{answers_thread, is_reviewer, why_commented, why_replied, wrote_in_answered};
ghost use Rattle.review_core_rules.specs.Seen.{of_account};
ghost use Rattle.review_core_rules.specs.declared.rows.Why.TheVariants.{Ready, Added};
ghost use Rattle.review_core_tables.specs.Copies.{has_lost, lost_label};
ghost use Rattle.review_core_rules.specs.Change as change;

use crate::attention::Rule;
use crate::comments::of_number;
use crate::roles::is_reviewer;
use review_core_rules::{Comment, Post, VoteKey, Why};
use review_file::Label;
use review_table::Table;
use review_words::{AccountNo, LabelName, NewComment, Role};
use std::alloc::AllocError;

/// A change is ready: each reviewer is called.
#[derive(Drop)]
pub struct WhenReady<'a> {
    pub roles: &'a Table<AccountNo, Role>,
}

impl<'a> Rule for WhenReady<'a> {
    ghost calls = { λ r u. if is_reviewer (of_account r.roles.now u) then Some Ready else None };

    fn call(&self, account: AccountNo) -> Result<Option<Why>, AllocError> {
        if is_reviewer(self.roles.get(&account).copied()) {
            return Ok(Some(Why::Ready));
        }
        Ok(None)
    }
}

/// An account was added: it is called where that is as a reviewer of an open change.
#[derive(Drop)]
pub struct WhenAdded {
    pub account: AccountNo,
    pub is_called: bool,
}

impl Rule for WhenAdded {
    ghost calls = { λ r u. if (r.account == u) && r.is_called then Some Added else None };

    fn call(&self, account: AccountNo) -> Result<Option<Why>, AllocError> {
        if self.account == account && self.is_called {
            return Ok(Some(Why::Added));
        }
        Ok(None)
    }
}

/// A review: on an open change a reply calls the owner, the uploader and who wrote in the threads that it answers; on a closed one
/// an unresolved comment calls the owner.
#[derive(Drop)]
pub struct WhenReviewed<'a> {
    pub is_open: bool,
    /// The comments before the review.
    pub stored: &'a [Post],
    /// The comments of the review, as they were given and as they are stored.
    pub given: &'a [NewComment],
    pub new: &'a [Comment],
    pub caller: AccountNo,
    pub owner: AccountNo,
    pub uploader: AccountNo,
}

impl<'a> Rule for WhenReviewed<'a> {
    ghost calls = { λ r u. if r.is_open then why_replied r.stored.now r.given.now r.caller r.owner r.uploader u else why_commented r.new.now r.caller r.owner u };

    fn call(&self, account: AccountNo) -> Result<Option<Why>, AllocError> {
        if self.is_open {
            return Ok(why_replied(self, account));
        }
        Ok(why_commented(self, account))
    }
}

fn why_replied(rule: &WhenReviewed<'_>, account: AccountNo) -> Option<Why>
    ensures { result ≡ why_replied rule.now.stored.now rule.now.given.now rule.now.caller rule.now.owner rule.now.uploader account }
{
    let is_sender = rule.owner == account || rule.uploader == account;
    if rule.caller != rule.owner && is_sender {
        return Some(Why::Replied(rule.caller));
    }
    if wrote_in_answered(rule.stored, rule.given, account) {
        return Some(Why::RepliedInThread(rule.caller));
    }
    None
}

fn why_commented(rule: &WhenReviewed<'_>, account: AccountNo) -> Option<Why>
    ensures { result ≡ why_commented rule.now.new.now rule.now.caller rule.now.owner account }
{
    let is_called = rule.owner == account && any_unresolved(rule.new);
    if rule.caller != rule.owner && is_called {
        return Some(Why::LeftUnresolved(rule.caller));
    }
    None
}

fn any_unresolved(rows: &[Comment]) -> bool
    ensures { result ≡ list_any (λ x. x.unresolved) rows.now }
{
    rows.iter().any(is_unresolved)
}

fn is_unresolved(comment: &Comment) -> bool
    ensures { result ≡ comment.now.unresolved }
{
    comment.row().unresolved
}

fn answers_root(stored: &[Post], new: &NewComment, root: u64) -> bool
    ensures { result ≡ option_map_or (λ p. p.root == root) (option_map_or (change.of_number stored.now) new.now.in_reply_to None) false }
{
    let Some(number) = new.in_reply_to else {
        return false;
    };
    match of_number(stored, number) {
        Some(post) => post.root == root,
        None => false,
    }
}

fn answers_thread(stored: &[Post], new: &[NewComment], root: u64) -> bool
    ensures { result ≡ answers_thread stored.now new.now root }
{
    for comment in new {
        if answers_root(stored, comment, root) {
            return true;
        }
    }
    false
}

fn wrote_in_answered(stored: &[Post], new: &[NewComment], account: AccountNo) -> bool
    ensures { result ≡ wrote_in_answered stored.now new.now account }
{
    for post in stored {
        if post.author == account && answers_thread(stored, new, post.root) {
            return true;
        }
    }
    false
}

/// A new patch set: who lost a vote is called.
#[derive(Drop)]
pub struct WhenLost<'a> {
    pub labels: &'a [Label],
    pub lost: &'a [VoteKey],
}

impl<'a> Rule for WhenLost<'a> {
    ghost calls = { λ r u. lost_label r.labels.now r.lost.now u };

    fn call(&self, account: AccountNo) -> Result<Option<Why>, AllocError> {
        lost_label(self.labels, self.lost, account)
    }
}

fn has_lost(lost: &[VoteKey], label: &LabelName, account: AccountNo) -> bool
    ensures { result ≡ has_lost lost.now account label.now }
{
    for key in lost {
        if key.label == *label && key.account == account {
            return true;
        }
    }
    false
}

/// The first label on which an account lost its vote.
fn lost_label(
    labels: &[Label],
    lost: &[VoteKey],
    account: AccountNo,
) -> Result<Option<Why>, AllocError>
    ensures { IfOk result (λ why. why ≡ lost_label labels.now lost.now account) }
{
    for label in labels {
        if has_lost(lost, label.name(), account) {
            let name = label.name().copy()?;
            return Ok(Some(Why::NotCopied(name)));
        }
    }
    Ok(None)
}
