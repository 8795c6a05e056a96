//! The answer to a submit with what it changes, and the answers to questions, from the rows that were loaded.
//!
//! A submit joins the chain of its change to the branch, or nothing: it is refused where a check of the change fails, for the bad link of
//! its chain, or for the first requirement that is unsatisfied for a change of the chain. [`show`] answers a question: accounts come by
//! number, votes by label and then by account, requirements by name, threads by their first comments.
//!
//! - **Proved**: each answer is that of every history that the rows are enough for.
//! - **Assumed**: nothing beyond the kit.
//! - **Only tested**: `scripts/desk.txt`; `bench/submits` for what a chain costs.
//! - **Must not know**: shelves, or that a request may come twice.
#![tactic(auto)]

pub mod branches;
pub mod checking;
pub mod joining;
pub mod questions;
pub mod showing;
pub mod submitting;

pub use questions::show;
pub use submitting::submit;
