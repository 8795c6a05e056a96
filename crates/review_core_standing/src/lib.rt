//! How the submit requirements of a project stand for a change, and its threads.
//!
//! [`facts_of`] makes the facts of a change from its rows and its project's file. [`status_of`] says how one requirement stands by them,
//! the first status that fits; [`statuses`] how each of a file does: `Code-Review` is UNSATISFIED where it applies, isn't overridden, and
//! its expression doesn't hold. A thread is a comment that answers none, with all that answer it; [`threads`] gives them by their first
//! comments, and [`has_unresolved`] says whether the last comment of one is unresolved.
//!
//! - **Proved**: statuses and threads are those of the definitions; a `label:` term counts accounts, each at most once
//!   ([`label_counts_accounts`]); a change has one standing ([`one_standing`]); both ways to an unresolved thread agree
//!   ([`unresolved_threads`]).
//! - **Assumed**: nothing beyond the kit.
//! - **Only tested**: `scripts/desk.txt`.
//! - **Must not know**: requests or other changes.
#![tactic(auto)]

pub mod facts;
pub mod gathering;
pub mod grouped;
pub mod standing;
pub mod status_laws;
pub mod thread_laws;
pub mod unresolved;

pub use facts::{facts_of, last_uploader};
pub use gathering::threads;
pub use grouped::GroupedChange;
pub use standing::{status, status_of, statuses};
pub use status_laws::{label_counts_accounts, one_standing};
pub use thread_laws::unresolved_threads;
pub use unresolved::has_unresolved;
