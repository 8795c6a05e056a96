//! Whether a project is there, has room, and judges by its file.
ghost use Rattle.std.specs.Prelude.{◌≡◌, IfOk};
ghost use Rattle.review_machine_rows.specs.{Known.known, Known.is_so, Steps.needs_file};
ghost use Rattle.review_machine_rows.specs.declared.rows.Counted.TheVariants as counted;
ghost use Rattle.review_machine_rows.specs.declared.rows.Want.TheVariants as want;

use review_machine_rows::{Counted, Rows, Want};
use review_words::{ChangeCommand, ProjectName};
use std::alloc::AllocError;

/// Whether a project is known to be there.
pub fn is_project(rows: &Rows, project: &ProjectName) -> Result<bool, AllocError>
    ensures { IfOk result (λ b. b ≡ is_so (known rows.now (want.Project project.now))) }
{
    let want = Want::Project(project.copy()?);
    let is = rows.is_so(&want);
    drop(want);
    Ok(is)
}

/// Whether there is known to be room for one more base of a project.
pub fn has_room(rows: &Rows, project: &ProjectName) -> Result<bool, AllocError>
    ensures { IfOk result (λ b. b ≡ is_so (known rows.now (want.Room (counted.BasesOf project.now)))) }
{
    let want = Want::Room(Counted::BasesOf(project.copy()?));
    let is = rows.is_so(&want);
    drop(want);
    Ok(is)
}

/// Whether a request on a change is judged by the file of its project.
pub fn needs_file(command: &ChangeCommand) -> bool
    ensures { result ≡ needs_file command.now }
{
    match command {
        ChangeCommand::Upload(_) | ChangeCommand::Abandon | ChangeCommand::Restore => true,
        ChangeCommand::Review(review) => !review.labels.as_slice().is_empty(),
        _ => false,
    }
}
