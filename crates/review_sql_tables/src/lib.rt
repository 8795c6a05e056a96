//! The tables of a desk in SQLite: the texts of its statements and what each of them means; tables made, migrated from one version to the
//! next, and known again; a record of any table put, changed and looked up.
//!
//! A text that asks for the account with a number gives the rows whose `number` is that integer, and none whose `number` is a text.
//!
//! - **Proved**: each text is understood as the definition says, by the kit's reader of SQL; no statement means anything by a rowid that
//!   `INSERT` chose.
//! - **Assumed**: nothing beyond the kit, whose `sqlite` says what a statement does.
//! - **Only tested**: `bench/damages` with rows that no desk writes; files that SQLite reads.
//! - **Must not know**: what a row means; it sees tables, columns and keys.
#![tactic(auto)]

pub mod bound;
pub mod changes;
pub mod columns;
pub mod creating;
pub mod fronts;
pub mod greatest;
pub mod making;
pub mod migrating;
pub mod reads;
pub mod rowids;
mod schemas;
pub mod table;
pub mod texts;
pub mod versions;
