//! A change with edits beside its rows.
ghost use Rattle.review_core_rules.specs.EditedRows.{IsOver};

use crate::rows::{AttentionEntry, ChangeRows, Comment, Header, PatchRow, Vote, VoteKey};
use review_table::Edited;
use review_words::{AccountNo, Role};

/// A change in the making: its rows as they were, and what a request edits in them, which is noted beside them.
#[derive(Drop)]
pub struct EditedChange<'r> {
    pub rows: &'r ChangeRows,
    pub header: Header,
    /// The patch sets after those of the rows.
    pub patches: Vec<PatchRow>,
    pub votes: Edited<'r, VoteKey, Vote>,
    pub roles: Edited<'r, AccountNo, Role>,
    /// The comments after those of the rows.
    pub comments: Vec<Comment>,
    pub attention: Edited<'r, AccountNo, AttentionEntry>,
    ghost over: { IsOver rows.now votes roles attention },
}
