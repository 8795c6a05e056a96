//! The answers to commands on changes, from the rows that decide them.
//!
//! [`create_change`] makes one; [`on_change`] answers each request on one that is there: a new patch set, a review, who reviews it, who is
//! called, and where it stands. A vote outside the range that the project's file gives its account is refused, and changes no row.
//!
//! - **Proved**: each answer is that of the definitions, the first check that fails or what the request gives, and its delta makes the rows
//!   of the history with the entry.
//! - **Assumed**: nothing beyond the kit.
//! - **Only tested**: `scripts/desk.txt`.
//! - **Must not know**: shelves, submits, or that a request may come twice.
#![tactic(auto)]

pub mod creating;
pub mod edits;
pub mod facts;
pub mod ranges;
pub mod refusing;
pub mod requests;
pub mod reviewing;
pub mod uploading;

pub use creating::create_change;
pub use requests::on_change;
