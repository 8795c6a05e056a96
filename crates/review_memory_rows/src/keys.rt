//! Keys of the index of bases.
ghost use Rattle.std.specs.Prelude.{◌≡◌, IfOk};

use review_table::Key;
use review_words::{BranchName, CommitName, ProjectName};
use std::alloc::AllocError;

/// That a commit may stand at a place of a branch. Keys are compared by what tells them apart soonest.
#[derive(PartialEq, Eq, PartialOrd, Ord, Drop)]
pub struct CommitKey {
    pub commit: CommitName,
    pub project: ProjectName,
    pub branch: BranchName,
    pub place: u64,
}

impl Key for CommitKey {
    fn copy(&self) -> Result<CommitKey, AllocError> {
        let commit = self.commit.copy()?;
        let project = self.project.copy()?;
        let branch = self.branch.copy()?;
        Ok(CommitKey {
            commit,
            project,
            branch,
            place: self.place,
        })
    }
}
