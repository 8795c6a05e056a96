//! A database as the tables of a desk, of this version and of earlier ones (`specs/Tables`); and what look-ups find of
//! accounts, groups, projects and branches.
//!
//! A look-up ends in one of three ways: found, no memory, or damage, where a row doesn't read or doesn't fit ([`Sight`]). One by a row of a
//! table is an `impl` of [`told::Told`] on that table's record: `find_told::<Accounts, S>` finds the name of an account. Where the table
//! `accounts` has the row `2 | ann`, account 2 is found to have the name `ann`. Where it has `2 | a b`, which is no name, that is damage.
//!
//! - **Proved**: a look-up finds what the tables have, and tells a row that doesn't read as damage.
//! - **Assumed**: nothing beyond the kit.
//! - **Only tested**: `bench/damages`; what a look-up costs (`bench/instructions`).
//! - **Must not know**: transactions, or who asks.
#![tactic(auto)]

pub mod branches;
pub mod counts;
pub mod known;
pub mod people;
pub mod plain;
pub mod sights;
pub mod told;

pub use sights::Sight;
