//! The terms of submit requirements and of copy conditions.

use crate::pattern::Pattern;
use review_names::{AccountNo, BranchName, ChangeKind, GroupName, LabelName, Path};

/// The value that a vote is compared with.
#[derive(Clone, Copy, PartialEq, Eq)]
pub enum VoteValue {
    /// The greatest value of the label.
    Max,
    /// The least value of the label.
    Min,
    /// Any value that is stored.
    Any,
    /// This value.
    Exactly(i8),
}

/// How a vote's value is compared.
#[derive(Clone, Copy, PartialEq, Eq)]
pub enum Comparison {
    /// `=V`
    Is(VoteValue),
    /// `>=N`
    AtLeast(i8),
    /// `>N`
    Above(i8),
    /// `<=N`
    AtMost(i8),
    /// `<N`
    Below(i8),
}

/// Whose votes count.
#[derive(Drop)]
pub enum Voters {
    /// Everyone's.
    Everyone,
    /// `user=non_uploader`: those of all but the uploader of the current patch set.
    NonUploader,
    /// `user=owner`
    Owner,
    /// `user=A`
    Account(AccountNo),
    /// `group=G`
    Group(GroupName),
}

/// How many accounts are asked for.
#[derive(Clone, Copy, PartialEq, Eq)]
pub enum Count {
    /// `count=K`
    Exactly(u8),
    /// `count>=K`
    AtLeast(u8),
    /// `count>K`
    Above(u8),
}

/// `label:L..`: so many accounts gave the label such a vote; at least one where no count is named.
#[derive(Drop)]
pub struct LabelTerm {
    /// The label.
    pub label: LabelName,
    /// Which votes count.
    pub comparison: Comparison,
    /// Whose votes count.
    pub voters: Voters,
    /// How many accounts are asked for.
    pub count: Option<Count>,
}

/// A term of a submit requirement.
#[derive(Drop)]
pub enum RequirementTerm {
    /// `is:true`, `is:false`
    Always(bool),
    /// `label:L..`
    Label(LabelTerm),
    /// `uploaderin:G`
    UploaderIn(GroupName),
    /// `ownerin:G`
    OwnerIn(GroupName),
    /// `branch:B`
    Branch(BranchName),
    /// `branch:^RE`
    BranchMatches(Pattern),
    /// `path:P`
    Path(Path),
    /// `path:^RE`, `file:^RE`
    PathMatches(Pattern),
    /// `file:N`: N is a component of a path: what stands between slashes, or before the first or
    /// behind the last one.
    File(Path),
    /// `has:unresolved`
    Unresolved,
}

/// A term of a copy condition.
#[derive(Drop)]
pub enum CopyTerm {
    /// `is:MIN`, `is:MAX`, `is:ANY`, `is:N`
    Value(VoteValue),
    /// `changekind:K`
    Kind(ChangeKind),
    /// `approverin:G`
    ApproverIn(GroupName),
    /// `uploaderin:G`
    UploaderIn(GroupName),
    /// `has:unchanged-files`
    UnchangedFiles,
}
