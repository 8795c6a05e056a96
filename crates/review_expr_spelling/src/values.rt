//! Values that stand in words: numbers, votes, kinds of change.
ghost use Rattle.std.specs.Prelude.{◌≡◌, ◌≤◌, ◌∷◌, [], ℕ, None, codes, option_map, pos, IfSome};
ghost use Rattle.review_expr_terms.specs.declared.terms.Comparison.TheVariants.{AtMost, Below};
ghost use Rattle.review_expr_spelling.specs.Values.{behind, by_front, comparison_in, digits_in, equal_to, is_met_by_zero, negative, number_in, vote_in};

use crate::cuts::behind;
use review_expr_terms::{Comparison, VoteValue};

#[tactic(auto, unfolding(crate::specs::Values::digits_in))]
fn one_digit(digit: u8) -> Option<u8>
    ensures { result ≡ digits_in (digit ∷ []) }
{
    if b'0' <= digit && digit <= b'9' {
        Some(digit - b'0')
    } else {
        None
    }
}

#[tactic(auto, unfolding(crate::specs::Values::digits_in))]
fn two_digits(tens: u8, ones: u8) -> Option<u8>
    ensures { result ≡ digits_in (tens ∷ ones ∷ []) }
{
    if b'0' < tens && tens <= b'9' && b'0' <= ones && ones <= b'9' {
        Some((tens - b'0') * 10 + (ones - b'0'))
    } else {
        None
    }
}

/// A number from 0 to 99, in decimal without leading zeros.
pub fn read_digits(text: &str) -> Option<u8>
    ensures number { result ≡ digits_in text.now }
    ensures small { IfSome result (λ n. n ≤ 99) }
{
    match text.as_bytes() {
        [digit] => one_digit(*digit),
        [tens, ones] => two_digits(*tens, *ones),
        _ => None,
    }
}

/// A number from 0 to 99, perhaps with a sign.
#[tactic(auto, unfolding(crate::specs::Values::number_in))]
fn read_number(text: &str) -> Option<i8>
    ensures { result ≡ number_in text.now }
{
    if let Some(rest) = behind(text, "-") {
        let number = read_digits(rest)?;
        return Some(-(number as i8));
    }
    if let Some(rest) = behind(text, "+") {
        let number = read_digits(rest)?;
        return Some(number as i8);
    }
    let number = read_digits(text)?;
    Some(number as i8)
}

/// `MAX`, `MIN`, `ANY` or a number.
#[tactic(auto, unfolding(crate::specs::Values::vote_in))]
pub fn read_vote(text: &str) -> Option<VoteValue>
    ensures { result ≡ vote_in text.now }
{
    match text {
        "MAX" => Some(VoteValue::Max),
        "MIN" => Some(VoteValue::Min),
        "ANY" => Some(VoteValue::Any),
        _ => Some(VoteValue::Exactly(read_number(text)?)),
    }
}

/// `+D` and `-D`, which are `=D` and `=-D`.
fn read_signed(text: &str) -> Option<Comparison>
    ensures { result ≡ by_front (behind (codes "+") text.now) (λ rest. option_map (λ n. equal_to (pos n)) (digits_in rest)) (by_front (behind (codes "-") text.now) (λ rest. option_map (λ n. equal_to (negative n)) (digits_in rest)) None) }
{
    if let Some(digits) = behind(text, "+") {
        let number = read_digits(digits)?;
        return Some(Comparison::Is(VoteValue::Exactly(number as i8)));
    }
    let digits = behind(text, "-")?;
    let number = read_digits(digits)?;
    Some(Comparison::Is(VoteValue::Exactly(-(number as i8))))
}

/// `<=N`, `<N`, `+D` and `-D`.
fn read_upper(text: &str) -> Option<Comparison>
    ensures { result ≡ by_front (behind (codes "<=") text.now) (λ rest. option_map AtMost (number_in rest)) (by_front (behind (codes "<") text.now) (λ rest. option_map Below (number_in rest)) (by_front (behind (codes "+") text.now) (λ rest. option_map (λ n. equal_to (pos n)) (digits_in rest)) (by_front (behind (codes "-") text.now) (λ rest. option_map (λ n. equal_to (negative n)) (digits_in rest)) None))) }
{
    if let Some(number) = behind(text, "<=") {
        return Some(Comparison::AtMost(read_number(number)?));
    }
    if let Some(number) = behind(text, "<") {
        return Some(Comparison::Below(read_number(number)?));
    }
    read_signed(text)
}

/// A comparison with a value or a number. `+1` is `=1`, and `-1` is `=-1`.
#[tactic(auto, unfolding(crate::specs::Values::comparison_in))]
pub fn read_comparison(text: &str) -> Option<Comparison>
    ensures { result ≡ comparison_in text.now }
{
    if let Some(value) = behind(text, "=") {
        return Some(Comparison::Is(read_vote(value)?));
    }
    if let Some(number) = behind(text, ">=") {
        return Some(Comparison::AtLeast(read_number(number)?));
    }
    if let Some(number) = behind(text, ">") {
        return Some(Comparison::Above(read_number(number)?));
    }
    read_upper(text)
}

/// Whether 0 meets a comparison with a number. MAX, MIN and ANY are not compared with it.
pub fn is_met_by_zero(asked: Comparison) -> bool
    ensures { result ≡ is_met_by_zero asked }
{
    match asked {
        Comparison::Is(VoteValue::Exactly(number)) => 0 == number,
        Comparison::Is(_) => false,
        Comparison::AtLeast(number) => number <= 0,
        Comparison::Above(number) => number < 0,
        Comparison::AtMost(number) => 0 <= number,
        Comparison::Below(number) => 0 < number,
    }
}
