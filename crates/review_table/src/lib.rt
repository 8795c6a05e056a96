//! Keyed tables: rows in the order of their keys, each key once. `put` a row under 3 and then another under 3, and `get` gives the second.
//!
//! Edits are made in two steps. [`Table::reserve_all`] makes places for them, which changes no row and may want memory; then
//! [`Table::apply`] makes them all, which can't fail. [`Table::release`] gives places back that have no row.
//!
//! An [`Edited`] is a table that stays as it is, with edits that are noted beside it: at most one at each key, and a look-up gives what the
//! key has once they are made.
//!
//! - **Proved**: a look-up gives the row, a range the rows between two keys; each call says what every key's place is after it ([`Table`]),
//!   or which row every key has once the edits are made ([`Edited`]).
//! - **Assumed**: nothing beyond the kit.
//! - **Only tested**: nothing.
//! - **Must not know**: what its rows mean.
#![tactic(auto)]

pub mod edited;
pub mod table;

pub use edited::Edited;
pub use review_names::Key;
pub use table::{BadRows, RowEdit, Table};
