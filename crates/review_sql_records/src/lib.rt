//! The records of accounts, members, project files, bases, stored requests, the least open epoch and the desk, as columns.
//!
//! An account is a row of `accounts` with its number and its name; a row whose name has no form of one is damage.
//!
//! - **Proved**: a record that is written is read as itself; a row reads as at most one record.
//! - **Assumed**: nothing beyond the kit.
//! - **Only tested**: `bench/damages`.
//! - **Must not know**: when a row is written.
#![tactic(auto)]

pub mod accounts;
pub mod answers;
pub mod bases;
pub mod counted;
pub mod desk;
pub mod epochs;
pub mod members;
pub mod moved;
pub mod names;
pub mod projects;
pub mod rows;
