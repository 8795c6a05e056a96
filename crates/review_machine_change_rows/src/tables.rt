//! All rows of one change, table by table.
use review_core_rules::{AttentionEntry, Comment, Header, PatchRow, Vote, VoteKey};
use review_table::Table;
use review_words::{AccountNo, CommentNo, PatchNo, Role};

/// All rows of one change, its patch sets and comments by their numbers.
#[derive(Drop)]
pub struct ChangeTables {
    pub header: Header,
    pub patches: Table<PatchNo, PatchRow>,
    pub votes: Table<VoteKey, Vote>,
    pub roles: Table<AccountNo, Role>,
    pub comments: Table<CommentNo, Comment>,
    pub attention: Table<AccountNo, AttentionEntry>,
}
