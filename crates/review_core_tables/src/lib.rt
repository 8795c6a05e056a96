//! What a request edits in the tables of one change: votes and their copying, roles, comments, and who is called.
//!
//! A call notes edits beside a table, and its contract says what each key has once they are made: `drop_votes` of an account on a patch
//! set leaves every other vote.
//!
//! - **Proved**: what each key has once the edits of a call are made.
//! - **Assumed**: nothing beyond the kit.
//! - **Only tested**: `scripts/desk.txt`, by the requests.
//! - **Must not know**: a whole change (`review_core` puts these calls together).
#![tactic(auto)]

pub mod attention;
pub mod comments;
pub mod copying;
pub mod reasons;
pub mod roles;
pub mod rules;
pub mod threads;
pub mod votes;

pub use attention::{Rule, Who, call_all, callable, drop_called, tell};
pub use comments::{Origin, answered, new_comments, of_number};
pub use copying::{GroupTables, Parted, is_in, part_votes};
pub use reasons::reason_of;
pub use roles::{is_eligible, is_reviewer, review_roles};
pub use rules::{WhenAdded, WhenLost, WhenReady, WhenReviewed};
pub use threads::posts;
pub use votes::{drop_votes, give, put_all};
