//! The roles of accounts.
ghost use Rattle.std.specs.List.{list_any};
ghost use Rattle.std.specs.Prelude.{◌≡◌, ◌==◌, ◌||◌, ℕ, is_some, OnOk, if◌then◌else◌};
ghost use Rattle.review_core_rules.specs.Change.{is_reviewer, says_something, writer_role};
ghost use Rattle.review_core_rules.specs.{EditedRows.edited_account, Seen.of_account, Votes.voted};

use review_table::{Edited, Table};
use review_words::{AccountNo, Given, Review, Role};
use std::alloc::AllocError;

fn any_vote(labels: &[Given]) -> bool
    ensures { result ≡ list_any (λ g. voted g.value) labels.now }
{
    labels.iter().any(|given| given.value != 0)
}

fn says_something(review: &Review) -> bool
    ensures { result ≡ says_something review.now }
{
    !review.message.as_str().is_empty() || review.comments.as_slice().len() != 0
}

/// The role of who wrote a review.
fn writer_role(
    review: &Review,
    owner: AccountNo,
    caller: AccountNo,
    was: Option<Role>,
) -> Option<Role>
    ensures { result ≡ writer_role review.now owner caller was }
{
    if any_vote(review.labels.as_slice()) {
        return Some(Role::Reviewer);
    }
    let becomes_cc = says_something(review) && caller != owner && was.is_none();
    if becomes_cc {
        return Some(Role::Cc);
    }
    was
}

/// Whether a role is that of a reviewer.
pub fn is_reviewer(role: Option<Role>) -> bool
    ensures { result ≡ is_reviewer role }
{
    match role {
        Some(Role::Reviewer) => true,
        Some(Role::Cc) => false,
        None => false,
    }
}

/// The roles after a review.
pub fn review_roles(
    roles: &mut Edited<'_, AccountNo, Role>,
    review: &Review,
    owner: AccountNo,
    caller: AccountNo,
) -> Result<(), AllocError>
    ensures table { roles.new.rows ≡ roles.old.rows }
    ensures roles { OnOk result ((u : ℕ) → edited_account roles.new u ≡ (if caller == u then writer_role review.now owner caller (edited_account roles.old caller) else edited_account roles.old u)) }
{
    let was = roles.get(&caller).copied();
    let role = writer_role(review, owner, caller, was);
    if role == was {
        return Ok(());
    }
    roles.set(caller, role)
}

/// Whether an account is the owner, the current uploader, or has a role. This takes no memory.
pub fn is_eligible(
    owner: AccountNo,
    uploader: AccountNo,
    roles: &Table<AccountNo, Role>,
    account: AccountNo,
) -> bool
    ensures { result ≡ ((owner == account) || ((uploader == account) || is_some (of_account roles.now account))) }
{
    owner == account || uploader == account || roles.get(&account).is_some()
}
