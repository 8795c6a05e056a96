//! Tables in memory: the rows of changes and the bases of branches with their indexes and counts, and stored answers.
//!
//! A change is found by its number, by the commit of a patch set, and by its place in a branch. `lower_keys` lists the stored answers that
//! closing an epoch gives up.
//!
//! - **Proved**: what each key has after each call; an index finds what the rows have, and that of bases has nothing else; what is made
//!   ready is made without memory.
//! - **Assumed**: nothing beyond the kit.
//! - **Only tested**: `scripts/desk.txt` in memory.
//! - **Must not know**: what a shelf is.
#![tactic(auto)]

pub mod answer_keys;
pub mod bases;
mod branches;
pub mod edits;
pub mod kept;
pub mod keys;
pub mod lower;
pub mod places;

pub use answer_keys::{AnswerKey, StoredAnswer};
pub use bases::Branches;
pub use edits::copied_changes;
pub use kept::{KeptChanges, Prepared};
pub use keys::CommitKey;
pub use lower::{key_of, lower_keys, remove_keys};
