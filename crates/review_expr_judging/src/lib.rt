//! When an expression of terms holds for the facts of a change or of a vote, and which labels it names.
//!
//! [`eval`] judges an expression on its tree. [`compile`] makes its flat list, the tree in postfix order, and [`Steps::eval`] judges by
//! that: once from front to back, with the same answers. The desk judges by lists.
//!
//! - **Proved**: the answer is the one of the definition, on a tree and on its list; each account counts once ([`each_account_once`]).
//! - **Assumed**: nothing beyond the kit.
//! - **Only tested**: `language_scripts`; that a list is made once for a change is read.
//! - **Must not know**: texts, project files or rows.
#![tactic(auto)]

pub mod compiled;
mod copy;
pub mod facts;
pub mod judge;
pub mod labels;
pub mod requirement;

pub use compiled::{Step, Steps, compile};
pub use facts::{ChangeFacts, ValueRange, VoteFacts};
pub use judge::{Judged, eval};
pub use labels::labels_of;
pub use requirement::each_account_once;
