//! A branch as rows know it, for the chains of its changes.
ghost use Rattle.std.specs.Prelude.{◌≡◌, IfOk};

use crate::rows::{Base, Rows, Want};
use review_chain::{Link, Links, Standing};
use review_words::{BranchName, ChangeNo, CommitName, ProjectName};
use std::alloc::AllocError;

/// A branch, and what rows know of it: the changes for it, and what commits are to it.
#[derive(Clone, Copy)]
pub struct RowLinks<'a> {
    pub rows: &'a Rows,
    pub project: &'a ProjectName,
    pub branch: &'a BranchName,
}

impl Links for RowLinks<'_> {
    ghost use Rattle.review_machine_rows.specs.Links.{links_in};

    ghost known = { λ l. links_in l.rows.now l.project.now l.branch.now };

    fn link(&self, change: ChangeNo) -> Result<Option<Link>, AllocError> {
        let Some(rows) = self.rows.change(change) else {
            return Ok(None);
        };
        let header = &rows.header;
        if header.project != *self.project || header.branch != *self.branch {
            return Ok(None);
        }
        let Some(patch) = rows.patches.last() else {
            return Ok(None);
        };
        Ok(Some(Link {
            patch: rows.patches.len(),
            parent: patch.parent.copy()?,
            state: header.state,
            wip: header.wip,
        }))
    }

    fn standing(&self, commit: &CommitName) -> Result<Option<Standing>, AllocError> {
        let want = Want::Standing(base_of(self.project, self.branch, commit)?);
        let standing = self.rows.standing(&want);
        drop(want);
        Ok(standing)
    }
}

// A commit in a branch, by copies of the names.
fn base_of(
    project: &ProjectName,
    branch: &BranchName,
    commit: &CommitName,
) -> Result<Base, AllocError>
    ensures { IfOk result (λ base. base ≡ record { project = project.now; branch = branch.now; commit = commit.now }) }
{
    let project = project.copy()?;
    let branch = branch.copy()?;
    let commit = commit.copy()?;
    Ok(Base {
        project,
        branch,
        commit,
    })
}
