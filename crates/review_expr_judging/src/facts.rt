//! What expressions are judged by.

use review_expr_terms::ChangeKind;
use review_names::{AccountNo, BranchName, Groups, LabelName, Paths};
use std::collections::BTreeMap;

/// The least and the greatest value of a label.
#[derive(Clone, Copy, PartialEq, Eq)]
pub struct ValueRange {
    /// The least value.
    pub least: i8,
    /// The greatest value.
    pub greatest: i8,
}

/// A change, as submit requirements are judged by it. Each account has at most one vote on a label.
#[derive(Drop)]
pub struct ChangeFacts {
    /// The votes on the current patch set, by label and account.
    pub votes: BTreeMap<LabelName, BTreeMap<AccountNo, i8>>,
    /// The range of each label.
    pub ranges: BTreeMap<LabelName, ValueRange>,
    /// The paths of the current patch set.
    pub paths: Paths,
    /// Who made the change.
    pub owner: AccountNo,
    /// Who sent the current patch set.
    pub uploader: AccountNo,
    /// The branch that the change is for.
    pub branch: BranchName,
    /// Whether a thread is unresolved.
    pub unresolved: bool,
    /// The groups.
    pub groups: Groups,
}

/// A vote on the patch set before a new one, as copy conditions are judged by it.
#[derive(Drop)]
pub struct VoteFacts {
    /// The vote's value.
    pub value: i8,
    /// Who voted.
    pub voter: AccountNo,
    /// The range of the vote's label.
    pub range: ValueRange,
    /// What the new patch set changed.
    pub kind: ChangeKind,
    /// Who sent the new patch set.
    pub uploader: AccountNo,
    /// Whether both patch sets have the same paths.
    pub unchanged_files: bool,
    /// The groups.
    pub groups: Groups,
}
