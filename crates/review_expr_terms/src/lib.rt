//! The parts of expressions: what a text is cut into, the tree that its tokens make, the terms of submit requirements and copy conditions,
//! and patterns.
//!
//! `label:Code-Review+2 -(is:true)` is cut into the words `label:Code-Review+2`, `-` and `is:true`, and two parentheses.
//!
//! - **Proved**: a text is cut as the definition says; tokens of the grammar have their one tree, and others their first fault; a pattern
//!   matches a whole text by the definition of `regex`.
//! - **Assumed**: nothing beyond the kit. An engine may refuse a pattern that nests deeper than it reads.
//! - **Only tested**: `language_scripts` runs texts with their answers.
//! - **Must not know**: how a word is spelled, or changes.
#![tactic(auto)]

pub mod lexemes;
pub mod parser;
pub mod pattern;
pub mod terms;
pub mod token;
pub mod tree;
pub mod word;

pub use lexemes::{CutFault, MOST_BYTES, Piece, cut};
pub use parser::{ShapeFault, one_tree, parse};
pub use pattern::{Pattern, PatternFault};
pub use review_names::ChangeKind;
pub use terms::{Comparison, CopyTerm, Count, LabelTerm, RequirementTerm, VoteValue, Voters};
pub use token::Token;
pub use tree::Node;
pub use word::WordFault;
