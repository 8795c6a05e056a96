//! The values of `label:` words.
ghost use Rattle.std.specs.Prelude.{◌≡◌, ◌<◌, ◌-◌, true, IfOk, IfErr, IfNone, IfSome, Some, option_map};
ghost use Rattle.review_names.specs.{Forms.is_label, Numerals.account_of};
ghost use Rattle.review_expr_spelling.specs.Labels.{accounts_in, count_in, label_in, longest_label, one_part, parts_in, two_parts, user_in, voters_in};
ghost use Rattle.review_expr_spelling.specs.{Words.IsUnread, inner.Words.text_behind};

use crate::cuts::{behind, cut_at};
use crate::names::read_name;
use crate::values::{read_comparison, read_digits};
use review_expr_terms::{Count, LabelTerm, Voters, WordFault};
use review_names::names::OfGroup;
use review_names::places::OfLabel;
use review_names::{AccountNo, Form};
use std::alloc::Global;

/// The most bytes of a label's name.
const MOST_BYTES: usize = 40;

/// The front of this length and what follows it, if the front is the name of a label.
fn label_front(value: &str, end: usize) -> Option<(&str, &str)>
    requires { 0 < end }
    ensures front { IfSome result (λ x. longest_label end value.now ≡ Some (x.0.now, x.1.now)) }
    ensures none { IfNone result (longest_label end value.now ≡ longest_label (end - 1) value.now) }
    ensures name { IfSome result (λ x. is_label x.0.now ≡ true) }
{
    let Some((name, rest)) = value.split_at_checked(end) else {
        return None;
    };
    if OfLabel::is_met(name) {
        Some((name, rest))
    } else {
        None
    }
}

/// The longest front that is the name of a label, and what follows it.
fn split_label(value: &str) -> Option<(&str, &str)>
    ensures split { option_map (λ x. (x.0.now, x.1.now)) result ≡ longest_label 40 value.now }
    ensures name { IfSome result (λ x. is_label x.0.now ≡ true) }
{
    let mut end = MOST_BYTES;
    while end > 0 {
        if let Some((name, rest)) = label_front(value, end) {
            return Some((name, rest));
        }
        end -= 1;
    }
    None
}

#[tactic(auto, unfolding(crate::specs::Labels::accounts_in))]
fn read_accounts(text: &str) -> Option<u8>
    ensures { result ≡ accounts_in text.now }
{
    let number = read_digits(text)?;
    if 1 <= number && number <= 20 {
        Some(number)
    } else {
        None
    }
}

#[tactic(auto, unfolding(crate::specs::Labels::count_in))]
fn read_count(part: &str) -> Option<Count>
    ensures { result ≡ count_in part.now }
{
    if let Some(number) = behind(part, "count=") {
        return Some(Count::Exactly(read_accounts(number)?));
    }
    if let Some(number) = behind(part, "count>=") {
        return Some(Count::AtLeast(read_accounts(number)?));
    }
    let number = behind(part, "count>")?;
    Some(Count::Above(read_accounts(number)?))
}

fn read_account(text: &str) -> Option<AccountNo>
    ensures { result ≡ account_of text.now }
{
    match AccountNo::read(text) {
        Ok(account) => Some(account),
        Err(_) => None,
    }
}

#[tactic(auto, unfolding(crate::specs::Labels::user_in))]
fn read_user(text: &str) -> Option<Voters>
    ensures { result ≡ user_in text.now }
{
    match text {
        "non_uploader" => Some(Voters::NonUploader),
        "owner" => Some(Voters::Owner),
        _ => Some(Voters::Account(read_account(text)?)),
    }
}

#[tactic(auto, unfolding(crate::specs::Labels::voters_in))]
fn read_voters(alloc: Global, part: &str) -> Result<Voters, WordFault>
    ensures voters { IfOk result (λ v. voters_in part.now ≡ Some v) }
    ensures fault { IfErr result (IsUnread (voters_in part.now)) }
{
    if let Some(user) = behind(part, "user=") {
        return read_user(user).ok_or(WordFault::BadValue);
    }
    let Some(group) = behind(part, "group=") else {
        return Err(WordFault::BadValue);
    };
    match read_name::<OfGroup>(alloc, group) {
        Ok(group) => Ok(Voters::Group(group)),
        Err(fault) => Err(fault),
    }
}

/// Two parts, of which one is a count.
#[tactic(auto, unfolding(crate::specs::Labels::parts_in))]
fn read_two_parts(
    alloc: Global,
    first: &str,
    second: &str,
) -> Result<(Voters, Option<Count>), WordFault>
    ensures parts { IfOk result (λ p. two_parts (count_in first.now) (count_in second.now) first.now second.now ≡ Some p) }
    ensures fault { IfErr result (IsUnread (two_parts (count_in first.now) (count_in second.now) first.now second.now)) }
{
    let (voters, count) = match (read_count(first), read_count(second)) {
        (_, Some(count)) => (first, count),
        (Some(count), None) => (second, count),
        (None, None) => return Err(WordFault::BadValue),
    };
    match read_voters(alloc, voters) {
        Ok(voters) => Ok((voters, Some(count))),
        Err(fault) => Err(fault),
    }
}

/// A part, which may be a count.
fn read_one_part(alloc: Global, part: &str) -> Result<(Voters, Option<Count>), WordFault>
    ensures parts { IfOk result (λ p. one_part (count_in part.now) part.now ≡ Some p) }
    ensures fault { IfErr result (IsUnread (one_part (count_in part.now) part.now)) }
{
    if let Some(count) = read_count(part) {
        return Ok((Voters::Everyone, Some(count)));
    }
    match read_voters(alloc, part) {
        Ok(voters) => Ok((voters, None)),
        Err(fault) => Err(fault),
    }
}

/// The parts of a label word: which says whose votes count, and which says how many.
#[tactic(auto, unfolding(crate::specs::Labels::parts_in))]
fn read_parts(alloc: Global, parts: Option<&str>) -> Result<(Voters, Option<Count>), WordFault>
    ensures parts { IfOk result (λ p. parts_in (text_behind parts.entry) ≡ Some p) }
    ensures fault { IfErr result (IsUnread (parts_in (text_behind parts.entry))) }
{
    let Some(parts) = parts else {
        return Ok((Voters::Everyone, None));
    };
    match cut_at(parts, ',') {
        Some((first, second)) => read_two_parts(alloc, first, second),
        None => read_one_part(alloc, parts),
    }
}

/// The value of a `label:` word. Whether 0 meets the comparison is not asked.
#[tactic(auto, unfolding(crate::specs::Labels::label_in))]
pub fn read_label(alloc: Global, value: &str) -> Result<LabelTerm, WordFault>
    ensures term { IfOk result (λ t. label_in value.now ≡ Some t) }
    ensures fault { IfErr result (IsUnread (label_in value.now)) }
{
    let Some((name, rest)) = split_label(value) else {
        return Err(WordFault::BadValue);
    };
    let (asked, parts) = match cut_at(rest, ',') {
        Some((asked, parts)) => (asked, Some(parts)),
        None => (rest, None),
    };
    let Some(comparison) = read_comparison(asked) else {
        return Err(WordFault::BadValue);
    };
    let (voters, count) = match read_parts(alloc, parts) {
        Ok(parts) => parts,
        Err(fault) => return Err(fault),
    };
    match read_name::<OfLabel>(alloc, name) {
        Ok(label) => Ok(LabelTerm {
            label,
            comparison,
            voters,
            count,
        }),
        Err(fault) => Err(fault),
    }
}
