//! Lines of a page, added to its text. Each call fails for want of memory alone.
ghost use Rattle.std.specs.Prelude.{◌≡◌, ◌++◌, ◌∷◌, [], codes, IfOk, OnOk, string_bytes};
ghost use Rattle.{review_names.specs.Numerals.numeral, review_words.specs.Texts.signed};
ghost use Rattle.review_desk_work.specs.Told.{attention_line, joined_line, line, patch_line, plus, requirement_line, role_line, state_line, vote_line, vote_value, yes_or_no};

use review_words::{
    AccountNo, JoinedChange, ShownAttentionEntry, ShownChange, ShownRequirement, ShownVote, State,
    Status,
};
use std::alloc::{AllocError, Global};

pub fn yes_or_no(truth: bool) -> &'static str
    ensures { result.now ≡ yes_or_no truth }
{
    if truth { "yes" } else { "no" }
}

/// Adds a line of two words.
pub fn push_pair(text: &mut String, first: &str, second: &str) -> Result<(), AllocError>
    ensures { OnOk result (string_bytes text.new ≡ string_bytes text.old ++ line (first.now ∷ second.now ∷ [])) }
{
    write!(text, "{first} {second}\n")
}

/// Adds a line of three words.
pub fn push_three(
    text: &mut String,
    first: &str,
    second: &str,
    third: &str,
) -> Result<(), AllocError>
    ensures { OnOk result (string_bytes text.new ≡ string_bytes text.old ++ line (first.now ∷ second.now ∷ third.now ∷ [])) }
{
    write!(text, "{first} {second} {third}\n")
}

/// Adds the line of an account in a role.
#[tactic(auto, using(review_names::proofs::Numerals::decimal_numeral))]
pub fn push_role(text: &mut String, role: &str, account: AccountNo) -> Result<(), AllocError>
    ensures { OnOk result (string_bytes text.new ≡ string_bytes text.old ++ role_line role.now account) }
{
    let account = account.get() as u64;
    write!(text, "{role} {account}\n")
}

/// Adds the line of where a change stands.
#[tactic(auto, using(review_names::proofs::Numerals::decimal_numeral))]
pub fn push_state(text: &mut String, shown: &ShownChange) -> Result<(), AllocError>
    ensures { OnOk result (string_bytes text.new ≡ string_bytes text.old ++ state_line shown.now) }
{
    let (change, state) = (shown.change.get() as u64, shown.state.name());
    write!(text, "change {change} {state}\n")
}

/// Adds the line of the current patch set.
#[tactic(auto, using(review_names::proofs::Numerals::decimal_numeral))]
pub fn push_patch(text: &mut String, change: &ShownChange) -> Result<(), AllocError>
    ensures { OnOk result (string_bytes text.new ≡ string_bytes text.old ++ patch_line change.now) }
{
    let (patch, commit) = (change.patch.get() as u64, change.commit.as_str());
    let uploader = change.uploader.get() as u64;
    write!(text, "patch set {patch} {commit} by {uploader}\n")
}

fn plus(value: i8) -> &'static str
    ensures { result.now ≡ plus value }
{
    if value.is_negative() { "" } else { "+" }
}

#[tactic(auto, using(review_words_texts::proofs::Signed::signed_decimal_pos, review_words_texts::proofs::Signed::signed_decimal_neg))]
fn signed_text(alloc: Global, value: i8) -> Result<String, AllocError>
    ensures { IfOk result (λ text. string_bytes text ≡ signed value) }
{
    format!(in alloc; "{value}")
}

/// The value of a vote, with its sign.
fn vote_value(alloc: Global, value: i8) -> Result<String, AllocError>
    ensures { IfOk result (λ text. string_bytes text ≡ vote_value value) }
{
    let number = signed_text(alloc, value)?;
    format!(in alloc; "{}{}", plus(value), number.as_str())
}

/// Adds the line of a vote.
#[tactic(auto, using(review_names::proofs::Numerals::decimal_numeral))]
pub fn push_vote(alloc: Global, text: &mut String, vote: &ShownVote) -> Result<(), AllocError>
    ensures { OnOk result (string_bytes text.new ≡ string_bytes text.old ++ vote_line vote.now) }
{
    let value = vote_value(alloc, vote.value)?;
    let (label, value) = (vote.label.as_str(), value.as_str());
    let account = vote.account.get() as u64;
    write!(text, "vote {label} {value} by {account}\n")
}

/// Adds the line of a submit requirement.
#[tactic(auto, unfolding(crate::specs::Told::requirement_line))]
pub fn push_requirement(text: &mut String, requirement: &ShownRequirement) -> Result<(), AllocError>
    ensures { OnOk result (string_bytes text.new ≡ string_bytes text.old ++ requirement_line requirement.now) }
{
    let status = requirement.status.name();
    push_three(text, "requirement", requirement.name.as_str(), status)
}

#[tactic(auto, using(review_names::proofs::Numerals::decimal_numeral))]
fn push_attention_words(
    text: &mut String,
    account: u64,
    request: u64,
    reason: &str,
) -> Result<(), AllocError>
    ensures { OnOk result (string_bytes text.new ≡ string_bytes text.old ++ line (codes "attention" ∷ numeral account ∷ codes "since" ∷ (numeral request ++ codes ":") ∷ reason.now ∷ [])) }
{
    write!(text, "attention {account} since {request}: {reason}\n")
}

/// Adds the line of an account in the attention set.
#[tactic(auto, unfolding(crate::specs::Told::attention_line))]
pub fn push_attention(text: &mut String, call: &ShownAttentionEntry) -> Result<(), AllocError>
    ensures { OnOk result (string_bytes text.new ≡ string_bytes text.old ++ attention_line call.now) }
{
    let account = call.account.get() as u64;
    push_attention_words(text, account, call.request, call.reason.as_str())
}

/// Adds the line of a change that joined its branch at a place.
#[tactic(auto, using(review_names::proofs::Numerals::decimal_numeral))]
pub fn push_joined(text: &mut String, place: u64, joined: &JoinedChange) -> Result<(), AllocError>
    ensures { OnOk result (string_bytes text.new ≡ string_bytes text.old ++ joined_line place joined.now) }
{
    let (change, commit) = (joined.change.get() as u64, joined.commit.as_str());
    write!(text, "{place} {change} {commit}\n")
}
