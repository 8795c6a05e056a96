//! One change: its rows, and what each accepted request makes of it.
//!
//! [`ChangeRows`] are its rows, table by table. `specs/Change` says what a change is and what a request makes of it (`after`), a new change
//! (`begun`) and one that joins its branch (`joined_at`); `specs/Seen` which change its rows show, `specs/Parts` what its row of a table
//! is, `specs/Sound` what is true of every change. An [`EditedChange`] is a change in the making: its rows, and beside them what a request edits;
//! `specs/EditedChanges` says which change it makes. An account's vote of 2 on `Code-Review`, say, is copied to a new patch set where the
//! label's copy condition holds for it, by the file and the groups before the upload, and is gone from the new patch set otherwise; on the
//! older one it stays.
//!
//! - **Proved**, as contracts of calls that do nothing: a request keeps a change sound ([`begins_sound`], [`stays_sound`],
//!   [`joins_sound`]).
//! - **Assumed**: nothing beyond the kit.
//! - **Only tested**: nothing.
//! - **Must not know**: other changes, branches or histories, or how rows are made (`review_core` does that).
#![tactic(auto)]

pub mod edited_change;
pub mod editing;
pub mod laws;
pub mod rows;

pub use edited_change::EditedChange;
pub use editing::begin_edits;
pub use laws::{begins_sound, joins_sound, stays_sound, voters_are_eligible};
pub use rows::{
    AttentionEntry, ChangeRows, Comment, CommentRow, Header, PatchRow, Post, Vote, VoteKey, Why,
};
