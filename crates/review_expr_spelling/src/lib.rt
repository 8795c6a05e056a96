//! A word of an expression read as a term: `label:Code-Review=MAX,count>=2` as a label term, `is:MIN` as a term of copy conditions.
//!
//! - **Proved**: a word is read as its term, or refused with its flaw ([`read_requirement`], [`read_copy`]).
//! - **Assumed**: nothing beyond the kit.
//! - **Only tested**: `language_scripts`.
//! - **Must not know**: trees, or when a term holds.
#![tactic(auto)]

mod copy;
mod cuts;
mod keys;
mod labels;
mod names;
mod requirement;
mod values;

pub use copy::read_copy;
pub use requirement::read_requirement;
