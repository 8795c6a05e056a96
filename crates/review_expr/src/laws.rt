//! Laws of expressions.
ghost use Rattle.std.specs.Prelude.{◌≡◌, ◌⊎◌, ◌≤◌, ℕ, List, length};
ghost use Rattle.review_expr_terms.specs.Grammar.{Tree};
ghost use Rattle.review_words.specs.declared.faults.ExprCode.{ExprCode, TheVariants.BadValue};
ghost use Rattle.review_expr.specs.Expressions.{HasExpr, HasWord, IsFault};

use crate::spelled::Spelled;

/// A text has at most one tree.
pub fn one_expression<T: Spelled>()
    ensures { (text : List ℕ) (t u : Tree T) → HasExpr T.reading text t → HasExpr T.reading text u → t ≡ u }
{}

/// A text that has a tree has no fault but a bad value, at a word whose pattern nests deeper than
/// the engine reads.
pub fn never_both<T: Spelled>()
    ensures { (text : List ℕ) (t : Tree T) (place : ℕ) (code : ExprCode) → HasExpr T.reading text t → IsFault T.reading T.is_deep text place code → (code ≡ BadValue) × HasWord T.reading T.is_deep text place }
{}

/// A text has at most one fault, and that has one place, but for a bad value, at a word whose
/// pattern nests deeper than the engine reads.
pub fn one_fault<T: Spelled>()
    ensures { (text : List ℕ) (p q : ℕ) (a b : ExprCode) → IsFault T.reading T.is_deep text p a → IsFault T.reading T.is_deep text q b → ((p ≡ q) × (a ≡ b)) ⊎ (((a ≡ BadValue) × HasWord T.reading T.is_deep text p) ⊎ ((b ≡ BadValue) × HasWord T.reading T.is_deep text q)) }
{}

/// The place of a fault lies in the text, and is at most 4,096.
pub fn place_within<T: Spelled>()
    ensures { (text : List ℕ) (place : ℕ) (code : ExprCode) → IsFault T.reading T.is_deep text place code → (place ≤ length text) × (place ≤ 4096) }
{}
