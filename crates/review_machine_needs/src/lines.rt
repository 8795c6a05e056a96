//! What is asked of a project and its ancestors.
ghost use Rattle.std.specs.Prelude.{◌≡◌, IfOk, option_and_then, option_copied};
ghost use Rattle.{review_file_rules.specs.Reading.named_parent, review_machine_rows.specs.Lines.most_depth};
ghost use Rattle.review_machine_rows.specs.Steps.{line_steps, next_of, own_in, known_parent, parent_of, parent_or, topic_of};

use crate::changes::file_want;
use crate::judging::project_of;
use review_file_lines::{FileMemo, MOST_DEPTH};
use review_machine_rows::{Matter, Rows, StoredFile, Want};
use review_words::{Command, FileText, ProjectName};
use std::alloc::{AllocError, Global};

/// What is left of the steps of the line that a command or a question is judged by, after the first project: the file of the first one of its
/// ancestors whose file isn't known.
pub fn wants_above(
    alloc: Global,
    memo: &mut FileMemo,
    rows: &Rows,
    matter: Matter<'_>,
) -> Result<Vec<Want>, AllocError>
    ensures { IfOk result (λ wants. wants.items ≡ next_of rows.now (line_steps rows.now most_depth (parent_of rows.now (topic_of matter.entry)))) }
{
    if let Matter::Command(Command::PutProject { project, file }) = matter {
        return wants_above_put(alloc, memo, rows, project, file);
    }
    match project_of(rows, matter) {
        Some(project) => line_wants(alloc, rows, parent_in(own_file(rows, project)?)),
        None => line_wants(alloc, rows, None),
    }
}

// What is asked of the ancestors of a project that gets a file: those above the file that it has, or else above the new one.
fn wants_above_put(
    alloc: Global,
    memo: &mut FileMemo,
    rows: &Rows,
    project: &ProjectName,
    file: &FileText,
) -> Result<Vec<Want>, AllocError>
    ensures { IfOk result (λ wants. wants.items ≡ next_of rows.now (line_steps rows.now most_depth (parent_or (named_parent file.now) (own_in rows.now project.now)))) }
{
    match own_file(rows, project)? {
        Some(stored) => line_wants(alloc, rows, stored.parent.as_ref()),
        None => line_wants(alloc, rows, memo.named_parent(alloc, file)?.as_ref()),
    }
}

/// The file that a project is known to have of its own.
pub fn own_file<'r>(
    rows: &'r Rows,
    project: &ProjectName,
) -> Result<Option<&'r StoredFile>, AllocError>
    ensures { IfOk result (λ file. option_copied file ≡ own_in rows.now project.now) }
{
    let want = Want::File(project.copy()?);
    let file = rows.file(&want);
    drop(want);
    Ok(file)
}

// The parent that a file names, where there is a file.
fn parent_in(found: Option<&StoredFile>) -> Option<&ProjectName>
    ensures { option_copied result ≡ option_and_then (λ f. f.parent) (option_copied found.entry) }
{
    match found {
        Some(file) => file.parent.as_ref(),
        None => None,
    }
}

// What is left of the first step of a line that has some left: the file of the first project of it whose file isn't known.
#[tactic(auto, using(crate::proofs::Going::line_unknown_at, crate::proofs::Going::no_line))]
fn line_wants<'r>(
    alloc: Global,
    rows: &'r Rows,
    first: Option<&'r ProjectName>,
) -> Result<Vec<Want>, AllocError>
    ensures { IfOk result (λ wants. wants.items ≡ next_of rows.now (line_steps rows.now most_depth (option_copied first.entry))) }
{
    let mut project = first;
    let mut left = MOST_DEPTH;
    while left > 0 {
        let Some(name) = project else {
            return Ok(Vec::new(alloc));
        };
        let want = Want::File(name.copy()?);
        if !rows.knows(&want) {
            drop(want);
            return file_want(alloc, name);
        }
        project = parent_in(rows.file(&want));
        drop(want);
        left -= 1;
    }
    Ok(Vec::new(alloc))
}
