//! The language of submit requirements and copy conditions: which texts are expressions, the tree that each has, and when it holds.
//!
//! `label:Code-Review+2 -(is:true)` is an expression. It names the label Code-Review, and holds for no change.
//!
//! - **Proved**: a text is answered by its tree where it has one, and by the first fault that applies, with its place, where it has none
//!   ([`parse_requirement`], [`parse_copy`]); it has at most one tree and one fault, never both, and a fault's place lies in the text (the
//!   laws); an expression holds exactly where the definition says, on its tree and on the flat list that is run without recursion
//!   ([`eval`], [`Terms::eval`]).
//! - **Assumed**: nothing beyond the kit. One place is free: a pattern that nests deeper than the engine reads may be read or refused.
//! - **Only tested**: `language_scripts` runs expressions with their trees, faults and places.
//! - **Must not know**: project files, rows or who votes.
#![tactic(auto)]

pub mod compiled;
pub mod expr;
pub mod expression;
pub mod fault;
pub mod laws;
mod reader;
pub mod spelled;
mod terms;
mod words;

pub use compiled::{TermList, Terms, compile};
pub use expr::{EvalFault, Expr, Facts, eval, labels_of, parse_copy, parse_requirement};
pub use expression::Expression;
pub use fault::ParseFault;
pub use laws::{never_both, one_expression, one_fault, place_within};
pub use review_words::{ExprCode, ExprFault};
pub use spelled::Spelled;
