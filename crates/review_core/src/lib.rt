//! One change: a [`ChangeFile`] has the rows of a change, which fit together, and a call for each request makes of it the change that the
//! definitions in `review_core_rules` say.
//!
//! [`begun`] makes the rows of a new change, `from_rows` takes stored rows and refuses those that don't fit together, and `rows` gives them
//! back. What a request makes is noted beside the rows, as an `EditedChange`: nothing is copied but what it edits. `with_patch_set` copies votes by
//! the file and the groups before the upload, and counts the copied and the lost ones; `with_review`, `with_reviewer`, `without_reviewer`,
//! `wip`, `ready`, `abandon`, `restore`, `attend`, `unattend` and `merged` are the other requests.
//!
//! The edits of `wip`, say, make the change as it was but that it is in work in progress, and nobody is called. `status` says how a
//! requirement stands, `threads` gives the comments thread by thread, `eligible` whether an account may be called.
//!
//! - **Proved**: the change that the edits make is the old one after the request; how many votes an upload copied and how many not; rows
//!   that don't fit together are refused, and no others.
//! - **Assumed**: nothing beyond the kit. What a request has to be (`fits`) its caller makes sure of first.
//! - **Only tested**: `scripts/desk.txt`, by the requests.
//! - **Must not know**: rights, other changes, or where rows are kept.
#![tactic(auto)]

mod attending;
mod beginning;
pub mod file;
mod reviewing;
mod roles;
mod sound;
mod states;
mod uploading;

pub use beginning::begun;
pub use file::{ChangeFile, RowsFault};
pub use review_core_rules::{
    AttentionEntry, ChangeRows, Comment, CommentRow, EditedChange, Header, PatchRow, Vote, VoteKey,
};
pub use roles::current_patch;
pub use uploading::Copied;
