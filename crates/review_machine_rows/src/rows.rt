//! Typed rows, what may be asked of tables, and what is known of them.
ghost use Rattle.std.specs.Prelude.{◌≡◌, IfOk};

use review_chain::Standing;
use review_core_rules::{AttentionEntry, ChangeRows, Comment, Header, PatchRow, Vote, VoteKey};
use review_table::{Key, RowEdit, Table};
use review_words::{
    AccountName, AccountNo, Bases, BranchName, ChangeNo, CommentNo, CommitName, Epoch, FileText,
    GroupName, JoinedChange, Listed, PatchNo, ProjectName, RequestId, Role,
};
use std::alloc::{AllocError, Global};

/// The key of a row that makes an account a member of a group.
#[derive(PartialEq, Eq, PartialOrd, Ord, Drop)]
pub struct MemberKey {
    pub group: GroupName,
    pub account: AccountNo,
}

impl Key for MemberKey {
    fn copy(&self) -> Result<MemberKey, AllocError> {
        let group = self.group.copy()?;
        Ok(MemberKey {
            group,
            account: self.account,
        })
    }
}

/// A branch of a project.
#[derive(PartialEq, Eq, PartialOrd, Ord, Drop)]
pub struct BranchKey {
    pub project: ProjectName,
    pub branch: BranchName,
}

impl Key for BranchKey {
    fn copy(&self) -> Result<BranchKey, AllocError> {
        let project = self.project.copy()?;
        let branch = self.branch.copy()?;
        Ok(BranchKey { project, branch })
    }
}

/// A commit in a branch.
#[derive(PartialEq, Eq, PartialOrd, Ord, Drop)]
pub struct Base {
    pub project: ProjectName,
    pub branch: BranchName,
    pub commit: CommitName,
}

impl Key for Base {
    fn copy(&self) -> Result<Base, AllocError> {
        let project = self.project.copy()?;
        let branch = self.branch.copy()?;
        let commit = self.commit.copy()?;
        Ok(Base {
            project,
            branch,
            commit,
        })
    }
}

/// The text of a project's file, with the parent that it names.
#[derive(Drop)]
pub struct StoredFile {
    pub text: FileText,
    pub parent: Option<ProjectName>,
}

impl StoredFile {
    /// The same file once more, with a text of its own. An error where there was no memory for it.
    pub fn copy(&self) -> Result<StoredFile, AllocError>
        ensures { IfOk result (λ f. f ≡ self.now) }
    {
        let text = self.text.copy()?;
        let parent = match &self.parent {
            Some(name) => Some(name.copy()?),
            None => None,
        };
        Ok(StoredFile { text, parent })
    }
}

/// A place of a branch, which is counted from 1.
#[derive(PartialEq, Eq, PartialOrd, Ord, Drop)]
pub struct PlaceKey {
    pub project: ProjectName,
    pub branch: BranchName,
    pub place: u64,
}

impl Key for PlaceKey {
    fn copy(&self) -> Result<PlaceKey, AllocError> {
        let project = self.project.copy()?;
        let branch = self.branch.copy()?;
        Ok(PlaceKey {
            project,
            branch,
            place: self.place,
        })
    }
}

/// A row that is put under its key, in place of the one that stands there, if any does.
#[derive(Drop)]
pub struct Put<K, V> {
    pub key: K,
    pub row: V,
}

/// What a request makes of a change, row by row: its header anew, and of its other rows those that are new, changed or gone.
#[derive(Drop)]
pub struct ChangeEdit {
    pub change: ChangeNo,
    pub header: Header,
    pub patches: Vec<RowEdit<PatchNo, PatchRow>>,
    pub votes: Vec<RowEdit<VoteKey, Vote>>,
    pub roles: Vec<RowEdit<AccountNo, Role>>,
    pub comments: Vec<RowEdit<CommentNo, Comment>>,
    pub attention: Vec<RowEdit<AccountNo, AttentionEntry>>,
}

/// What is counted of a desk, up to a limit.
#[derive(PartialEq, Eq, PartialOrd, Ord, Drop)]
pub enum Counted {
    /// The projects: at most 1,000.
    Projects,
    /// The bases of a project, over all its branches: at most 100,000.
    BasesOf(ProjectName),
}

/// One look-up. Each is by a full key or by the front of one, but for the greatest numbers, for the least open epoch and for whether a count has
/// reached its limit, of which a shelf may know more than its rows: none needs a walk over a table.
#[derive(PartialEq, Eq, PartialOrd, Ord, Drop)]
pub enum Want {
    /// How many requests were ever stored, those that were given up among them.
    Requests,
    /// The account of a number.
    Account(AccountNo),
    /// The account of a name.
    AccountNamed(AccountName),
    /// The greatest number of an account.
    LastAccount,
    /// Whether an account is a member of a group.
    Member(MemberKey),
    /// All members of a group.
    Group(GroupName),
    /// The file that a project has of its own, with the parent that it names.
    File(ProjectName),
    /// Whether a project is there, without its file.
    Project(ProjectName),
    /// Whether there may be one more.
    Room(Counted),
    /// Whether a commit is a base of a branch.
    Base(Base),
    /// The last place of a branch's bases.
    LastPlace(BranchKey),
    /// The bases of a branch.
    Bases(BranchKey),
    /// A change with all its rows.
    Change(ChangeNo),
    /// The change for a branch that has a patch set of a commit.
    ChangeOf(Base),
    /// The greatest number of a change.
    LastChange,
    /// The last place that a change joined a branch at.
    LastJoined(BranchKey),
    /// What a commit is to a branch.
    Standing(Base),
    /// The changes that joined a branch.
    Joined(BranchKey),
    /// The least open epoch.
    LeastEpoch,
}

impl Counted {
    /// The same count once more, which shares the project's name. An error where there was no memory for it.
    fn copied(&self) -> Result<Counted, AllocError>
        ensures { IfOk result (λ c. c ≡ self.now) }
    {
        match self {
            Counted::Projects => Ok(Counted::Projects),
            Counted::BasesOf(project) => Ok(Counted::BasesOf(project.copy()?)),
        }
    }
}

impl Key for Want {
    fn copy(&self) -> Result<Want, AllocError> {
        match self {
            Want::Requests => Ok(Want::Requests),
            Want::Account(number) => Ok(Want::Account(*number)),
            Want::AccountNamed(name) => Ok(Want::AccountNamed(name.copy()?)),
            Want::LastAccount => Ok(Want::LastAccount),
            Want::Member(member) => Ok(Want::Member(member.copy()?)),
            Want::Group(group) => Ok(Want::Group(group.copy()?)),
            Want::File(project) => Ok(Want::File(project.copy()?)),
            Want::Project(project) => Ok(Want::Project(project.copy()?)),
            Want::Room(counted) => Ok(Want::Room(counted.copied()?)),
            Want::Base(base) => Ok(Want::Base(base.copy()?)),
            Want::LastPlace(branch) => Ok(Want::LastPlace(branch.copy()?)),
            Want::Bases(branch) => Ok(Want::Bases(branch.copy()?)),
            Want::Change(number) => Ok(Want::Change(*number)),
            Want::ChangeOf(base) => Ok(Want::ChangeOf(base.copy()?)),
            Want::LastChange => Ok(Want::LastChange),
            Want::LastJoined(branch) => Ok(Want::LastJoined(branch.copy()?)),
            Want::Standing(base) => Ok(Want::Standing(base.copy()?)),
            Want::Joined(branch) => Ok(Want::Joined(branch.copy()?)),
            Want::LeastEpoch => Ok(Want::LeastEpoch),
        }
    }
}

/// What a load asks for.
#[derive(Drop)]
pub struct Need {
    pub wants: Vec<Want>,
}

/// What a look-up finds, but for that of a group, which finds a table of its members.
#[derive(Drop)]
pub enum Found {
    /// A number; 0 where there is none.
    Number(u64),
    /// The name of an account, or that there is no such account.
    Name(Option<AccountName>),
    /// The account that was looked for, or that none is that.
    Holder(Option<AccountNo>),
    /// The change that was looked for, or that none is that.
    Sender(Option<ChangeNo>),
    /// Whether it is so.
    IsSo(bool),
    /// The file of a project, or that there is no such project.
    Text(Option<StoredFile>),
    /// The bases of a branch.
    Commits(Bases),
    /// A change with all its rows, or that there is no such change. In a box, so that a row of another look-up isn't as large as a change.
    AChange(Option<Box<ChangeRows>>),
    /// What a commit is to a branch.
    Stands(Standing),
    /// The changes that joined a branch, in the order of their places.
    Joins(Listed<JoinedChange>),
}

/// What is known of the tables: of each look-up that was made, what it found. Of others nothing is known.
#[derive(Drop)]
pub struct Rows {
    /// The members of the groups that were looked up, in a table of its own, since what judges files reads them there.
    pub groups: Table<GroupName, Table<AccountNo, ()>>,
    /// What all other look-ups found.
    pub found: Table<Want, Found>,
}

/// What a request changes: for each account and member that it names a new row, or none; the file of a project and the base at a place
/// of a branch, neither of which is ever taken away; the rows of changes; and the least open epoch, with which the kept answers of lower epochs
/// are given up.
#[derive(Drop)]
pub struct Delta {
    pub accounts: Vec<RowEdit<AccountNo, AccountName>>,
    pub members: Vec<RowEdit<MemberKey, ()>>,
    pub file: Option<Put<ProjectName, StoredFile>>,
    pub base: Option<Put<PlaceKey, CommitName>>,
    pub changes: Vec<ChangeEdit>,
    /// The least open epoch from now on.
    pub least_epoch: Option<Epoch>,
}

/// A stored request, with the texts of its command and its reply.
#[derive(Drop)]
pub struct Kept {
    pub caller: AccountNo,
    pub epoch: Epoch,
    pub id: RequestId,
    /// Its number among the stored requests, from 1.
    pub request: u64,
    pub content: String,
    pub reply: String,
}

/// What is known of the identity of a request.
#[derive(Drop)]
pub enum Recalled {
    /// Its epoch is open, and the request is stored.
    Kept(Kept),
    /// Its epoch is open, and no request is stored under it.
    Fresh,
    /// Its epoch is closed.
    Closed,
}
