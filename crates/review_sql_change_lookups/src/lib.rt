//! What look-ups find of changes in the tables of a desk in SQLite: their rows, who sent a commit, what joined a branch, and whether a
//! commit is a base.
//!
//! The last change is told only where what stands of the change after it is a whole change or nothing. Where changes 1 and 2 joined a branch
//! at its places 1 and 2, what joined it is both, each with the commit of its last patch set. Where no change has place 1, that is damage.
//!
//! - **Proved**: a look-up finds what the tables have, and tells a row that doesn't read as damage.
//! - **Assumed**: nothing beyond the kit.
//! - **Only tested**: `bench/damages`; how long it takes at the limits (`bench/largest`).
//! - **Must not know**: transactions, or who asks.
#![tactic(auto)]

pub mod bases;
pub mod joins;
pub mod places;
pub mod reviews;
pub mod senders;
