//! A desk in SQLite is made, and what a delivery changes is written: each in one transaction.
//!
//! A vote puts the row of its change, one of `votes` and one of the stored requests, and counts the requests: all of it, or nothing.
//!
//! - **Proved**: the tables after it are those of the delta with the stored request, or as they were; rows that a delta doesn't name stay
//!   (`Commits.rest`).
//! - **Assumed**: what a stop leaves of a transaction is what the kit's `sqlite` says.
//! - **Only tested**: `bench/stops` at each call of the two files.
//! - **Must not know**: decisions.
#![tactic(auto)]

pub mod creating;
pub mod numbers;
pub mod writing;

pub use numbers::Numbers;
