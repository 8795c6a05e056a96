//! Whether a commit is known in a branch.
ghost use Rattle.std.specs.Prelude.{◌≡◌, IfOk};
ghost use Rattle.review_machine_rows.specs.Desks.{known_in};

use crate::keys::base_of;
use review_machine_rows::{Rows, Want};
use review_words::{BranchName, CommitName, ProjectName};
use std::alloc::AllocError;

/// Whether rows tell that a commit is known in a branch: as a base, or as that of a patch set.
pub fn is_known(
    rows: &Rows,
    project: &ProjectName,
    branch: &BranchName,
    commit: &CommitName,
) -> Result<bool, AllocError>
    ensures { IfOk result (λ b. b ≡ known_in rows.now project.now branch.now commit.now) }
{
    let base = Want::Base(base_of(project, branch, commit)?);
    let is_base = rows.is_so(&base);
    drop(base);
    if is_base {
        return Ok(true);
    }
    let sent = Want::ChangeOf(base_of(project, branch, commit)?);
    let is_sent = rows.has_holder(&sent);
    drop(sent);
    Ok(is_sent)
}
