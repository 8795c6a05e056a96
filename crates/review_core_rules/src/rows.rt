//! The rows of one change.
ghost use Rattle.std.specs.Prelude.{◌≡◌, IfOk, Some, None, true, if◌then◌else◌};
ghost use Rattle.review_core_rules.specs.Votes.{voted};

use review_names::ChangeKind;
use review_table::{Key, Table};
use review_words::{
    AccountNo, BranchName, CommentNo, CommitName, LabelName, Message, PatchNo, Paths, Place,
    ProjectName, Reason, Role, State, Subject,
};
use std::alloc::{AllocError, Global};
use std::marker::Model;
use std::rc::Rc;

/// What there is once of a change.
#[derive(Drop)]
pub struct Header {
    pub project: ProjectName,
    pub branch: BranchName,
    pub subject: Subject,
    pub owner: AccountNo,
    pub state: State,
    /// Whether the change is in work in progress.
    pub wip: bool,
    /// The place in the branch, 0 until the change joins it.
    pub place: u32,
    /// The number of the last accepted request that named or joined the change.
    pub updated: u64,
}

/// A patch set. Its number is its place among the change's patch sets, from 1.
#[derive(Drop)]
pub struct PatchRow {
    pub commit: CommitName,
    pub parent: CommitName,
    pub kind: ChangeKind,
    pub uploader: AccountNo,
    pub paths: Paths,
}

/// Which vote it is.
#[derive(PartialEq, Eq, PartialOrd, Ord, Drop)]
pub struct VoteKey {
    pub patch: PatchNo,
    pub label: LabelName,
    pub account: AccountNo,
}

impl Key for VoteKey {
    fn copy(&self) -> Result<VoteKey, AllocError> {
        let label = self.label.copy()?;
        Ok(VoteKey {
            patch: self.patch,
            label,
            account: self.account,
        })
    }
}

/// The value of a vote, which is never 0. Contracts see the value.
#[derive(Clone, Copy)]
pub struct Vote {
    value: i8,
}

impl Model for Vote {
    ghost use Rattle.{std.specs.Prelude.ℤ, std.specs.Prelude.IsTrue, review_core_rules.specs.Votes.voted};

    ghost Value = { ℤ };

    ghost view = { λ v. v.value };

    ghost invariant = { λ v. IsTrue (voted v.value) };

    ghost inverse = { λ n. record { value = n } };
}

impl Vote {
    /// The vote of a value, or none where the value is 0.
    pub fn from_value(value: i8) -> Option<Vote>
        ensures { result ≡ (if voted value then Some value else None) }
    {
        if value == 0 {
            return None;
        }
        Some(Vote { value })
    }

    /// The value, which isn't 0.
    pub fn get(self) -> i8
        ensures value { result ≡ self }
        ensures voted { voted self ≡ true }
    {
        self.value
    }
}

/// The row of a comment. Its number is its place among the change's comments, from 1.
#[derive(Drop)]
pub struct CommentRow {
    pub patch: PatchNo,
    pub path: Place,
    pub line: u32,
    pub author: AccountNo,
    pub message: Message,
    pub unresolved: bool,
    /// The comment that it answers.
    pub answers: Option<CommentNo>,
    /// The number of the request that it came with.
    pub request: u64,
}

/// A comment that is shared: contracts see its row, and its copies have one row together, so that the comments of a change are soon copied.
#[derive(Drop)]
pub struct Comment {
    row: Rc<CommentRow>,
}

impl Model for Comment {
    ghost use Rattle.review_core_rules.specs.declared.rows.CommentRow.{CommentRow};

    ghost Value = { CommentRow };

    ghost view = { λ c. c.row.value };
}

impl Comment {
    /// The comment of a row. An error where there was no memory for it.
    pub fn new(alloc: Global, row: CommentRow) -> Result<Comment, AllocError>
        ensures { IfOk result (λ c. c ≡ row) }
    {
        let row = Rc::new(alloc, row)?;
        Ok(Comment { row })
    }

    /// The row.
    pub fn row(&self) -> &CommentRow
        ensures { result.now ≡ self.now }
    {
        self.row.as_ref()
    }

    /// A copy of the comment, which shares its row and takes no memory. An error where there are as many copies as can be counted.
    pub fn copy(&self) -> Result<Comment, AllocError>
        ensures { IfOk result (λ c. c ≡ self.now) }
    {
        let row = self.row.clone()?;
        Ok(Comment { row })
    }
}

/// What a thread has of a comment: who wrote it, the number of the thread's first comment, and whether it leaves the thread
/// unresolved.
#[derive(Clone, Copy)]
pub struct Post {
    pub author: AccountNo,
    pub root: u64,
    pub unresolved: bool,
}

/// Why an account is called to a change.
#[derive(Drop)]
pub enum Why {
    /// It was added as a reviewer.
    Added,
    /// The change is ready for review.
    Ready,
    /// This account replied on the change.
    Replied(AccountNo),
    /// This account replied in a thread that the called one wrote in.
    RepliedInThread(AccountNo),
    /// This account left an unresolved comment.
    LeftUnresolved(AccountNo),
    /// Its vote on this label was not copied.
    NotCopied(LabelName),
    /// Somebody said why.
    Told(Reason),
}

/// That an account is in the attention set, and since which request.
#[derive(Drop)]
pub struct AttentionEntry {
    pub reason: Reason,
    pub request: u64,
}

/// All rows of one change, table by table.
#[derive(Drop)]
pub struct ChangeRows {
    pub header: Header,
    pub patches: Vec<PatchRow>,
    pub votes: Table<VoteKey, Vote>,
    pub roles: Table<AccountNo, Role>,
    pub comments: Vec<Comment>,
    pub attention: Table<AccountNo, AttentionEntry>,
}
