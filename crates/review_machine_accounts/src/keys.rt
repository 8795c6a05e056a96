//! Branches and bases as keys.
ghost use Rattle.std.specs.Prelude.{◌≡◌, IfOk};

use review_machine_rows::{Base, BranchKey};
use review_words::{BranchName, CommitName, ProjectName};
use std::alloc::AllocError;

/// A branch as a key.
pub fn branch_of(project: &ProjectName, branch: &BranchName) -> Result<BranchKey, AllocError>
    ensures { IfOk result (λ k. k ≡ record { project = project.now; branch = branch.now }) }
{
    Ok(BranchKey {
        project: project.copy()?,
        branch: branch.copy()?,
    })
}

/// A commit of a branch as a key.
pub fn base_of(
    project: &ProjectName,
    branch: &BranchName,
    commit: &CommitName,
) -> Result<Base, AllocError>
    ensures { IfOk result (λ k. k ≡ record { project = project.now; branch = branch.now; commit = commit.now }) }
{
    Ok(Base {
        project: project.copy()?,
        branch: branch.copy()?,
        commit: commit.copy()?,
    })
}
