//! The records of the rows of a change, as columns: headers, patch sets, votes, roles, comments, calls, and what is found by commit or by
//! place. A vote is a row of `votes` with its change, patch set, label, account and value; a row whose value is a text is damage.
//!
//! - **Proved**: a record that is written is read as itself; a row reads as at most one record.
//! - **Assumed**: nothing beyond the kit.
//! - **Only tested**: `bench/damages`.
//! - **Must not know**: when a row is written.
#![tactic(auto)]

pub mod attention;
pub mod branches;
pub mod comments;
pub mod headers;
pub mod patches;
mod paths;
pub mod roles;
pub mod sent;
mod values;
pub mod votes;
