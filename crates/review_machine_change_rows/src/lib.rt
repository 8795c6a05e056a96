//! Rows copied, of changes and the names of accounts; the edit that makes of a change what was noted beside its rows ([`edit_of`]); the change that tables show
//! ([`change_rows`], [`copied_change`]). Where one vote was noted, the edit has the header and that vote.
//!
//! - **Proved**: a copy is the same; an edit makes exactly the rows of the new change; tables with a gap are told so.
//! - **Assumed**: nothing beyond the kit.
//! - **Only tested**: nothing.
//! - **Must not know**: requests.
#![tactic(auto)]

pub mod copies;
pub mod edits;
pub mod loading;
pub mod rows;
pub mod tables;

pub use copies::{copied_header, copied_new, copied_patch, copied_table};
pub use edits::{edit_of, edit_of_new};
pub use loading::{ChangeFault, change_rows, copied_change};
pub use rows::Copied;
pub use tables::ChangeTables;
