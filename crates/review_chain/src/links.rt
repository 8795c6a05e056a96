//! What is known of the changes for a branch.
ghost use Rattle.std.specs.Prelude.{◌≡◌, IfOk};

use review_words::{ChangeNo, CommitName, PatchNo, State};
use std::alloc::AllocError;

/// A change as a chain sees it.
#[derive(Drop)]
pub struct Link {
    /// The number of its current patch set, from 1.
    pub patch: usize,
    /// The parent of its current patch set.
    pub parent: CommitName,
    pub state: State,
    /// Whether the change is in work in progress.
    pub wip: bool,
}

/// What a commit is to a branch.
#[derive(Clone, Copy, PartialEq, Eq)]
pub enum Standing {
    /// It is in the branch: a base of it, or the current commit of a merged change.
    InBranch,
    /// It isn't in the branch, and is the commit of this patch set of a change for the branch.
    PatchSet { change: ChangeNo, patch: PatchNo },
    /// It is neither.
    Nowhere,
}

/// What is known of the changes for one branch, and of commits. Of others nothing is known.
pub trait Links {
    ghost use Rattle.review_chain.specs.Branches.{Branch};

    /// What is known of the branch.
    ghost known: { Self → Branch };

    /// The link of a change, where it is known. An error is want of memory.
    fn link(&self, change: ChangeNo) -> Result<Option<Link>, AllocError>
        ensures { IfOk result (λ link. link ≡ (known self.now).link change) };

    /// What a commit is to the branch, where that is known. An error is want of memory.
    fn standing(&self, commit: &CommitName) -> Result<Option<Standing>, AllocError>
        ensures { IfOk result (λ standing. standing ≡ (known self.now).standing commit.now) };
}
