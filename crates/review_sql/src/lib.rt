//! A desk in SQLite as a shelf: made, migrated, opened, asked, changed and closed.
//!
//! `SqlShelf::open` of a file that `create` made gives a desk that is ours. Tables are ours where they have the form that `create` gives
//! them, and rows of one table rowids of their own: of a shelf over these all promises of a shelf are proved. Over tables of others, as one
//! with an index beside them, no more is promised than that a desk was there when it was opened.
//!
//! - **Proved**: `SqlShelf::create`, `open`, `migrate`, `close`, `recall`, `load`, `commit`, stops included; what a stop leaves is a desk
//!   of ours with the tables of a history ([`is_shut`] tells a store that shut for good).
//! - **Assumed**: an honest store; that no other program writes the file; what the kit says of a disk.
//! - **Only tested**: `bench/stops`, `bench/kills`, `bench/damages`, `bench/fail_connections`.
//! - **Must not know**: what a request asks, of answers but their texts, or HTTP.
#![tactic(auto)]

pub mod faults;
pub mod laws;
mod loading;
mod migrating;
mod opening;
mod seen;
mod serving;
pub mod shelf;
mod there;
pub mod versions;

pub use there::is_shut;
