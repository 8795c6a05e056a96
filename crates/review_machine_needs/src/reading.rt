//! The file by which a command or a question is judged.
ghost use Rattle.std.specs.Option.{option_map_or};
ghost use Rattle.std.specs.Prelude.{◌≡◌, [], IfOk, IfErr, map, option_copied, option_map};
ghost use Rattle.review_machine_rows.specs.Decisions.{IsUnread};
ghost use Rattle.review_machine_rows.specs.Steps.{HasFile, texts_for, texts_in, topic_of};
ghost use Rattle.review_machine_needs.specs.inner.Files.{unread_cause};

use crate::judging::project_of;
use crate::lines::own_file;
use review_file::{ProjectFile, ReadFault};
use review_file_lines::{FileMemo, LinePart, MOST_DEPTH, ReadLine};
use review_machine_rows::{Matter, Rows};
use review_words::{NotTaken, ProjectName};
use std::alloc::{AllocError, Global};

/// The effective file of the project by which a command or a question is judged, as rows know its texts; none where there is none. It is read
/// where it isn't remembered, and remembered from then on, where there is memory for that. Pattern only where the engine refuses a pattern that
/// one of the texts has, Damaged only where the texts spell no file, which those of a history don't; otherwise want of memory.
pub fn read_file_for(
    alloc: Global,
    memo: &mut FileMemo,
    rows: &Rows,
    matter: Matter<'_>,
) -> Result<Option<ProjectFile>, NotTaken>
    ensures read { IfOk result (λ r. HasFile (texts_for rows.now (topic_of matter.entry)) r) }
    ensures cause { IfErr result (IsUnread (texts_for rows.now (topic_of matter.entry))) }
{
    match read_line(alloc, memo, rows, project_of(rows, matter))? {
        Some(line) => Ok(Some(line.into_file())),
        None => Ok(None),
    }
}

/// The line of a project with its effective file, as rows know its texts; none where the project isn't there. The errors are those of
/// `read_file_for`.
pub(crate) fn read_line(
    alloc: Global,
    memo: &mut FileMemo,
    rows: &Rows,
    project: Option<&ProjectName>,
) -> Result<Option<ReadLine>, NotTaken>
    ensures texts { IfOk result (λ line. option_map_or (λ l. l.texts) line [] ≡ texts_in rows.now (option_copied project.entry)) }
    ensures read { IfOk result (λ line. HasFile (texts_in rows.now (option_copied project.entry)) (option_map (λ l. l.file) line)) }
    ensures cause { IfErr result (IsUnread (texts_in rows.now (option_copied project.entry))) }
{
    let parts = line_of(alloc, rows, project)?;
    read_parts(alloc, memo, &parts)
}

// The line of these projects with its effective file; none where there are none.
fn read_parts(
    alloc: Global,
    memo: &mut FileMemo,
    parts: &[LinePart<'_>],
) -> Result<Option<ReadLine>, NotTaken>
    ensures texts { IfOk result (λ line. option_map_or (λ l. l.texts) line [] ≡ map (λ p. p.text.now) parts.now) }
    ensures read { IfOk result (λ line. HasFile (map (λ p. p.text.now) parts.now) (option_map (λ l. l.file) line)) }
    ensures cause { IfErr result (IsUnread (map (λ p. p.text.now) parts.now)) }
{
    let [own, above @ ..] = parts else {
        return Ok(None);
    };
    match memo.get(alloc, own, above) {
        Ok(line) => {
            let _ = line.file();
            Ok(Some(line))
        }
        Err(fault) => Err(unread_cause(fault)),
    }
}

// The projects of a line, as far as rows know them.
fn line_of<'r>(
    alloc: Global,
    rows: &'r Rows,
    first: Option<&'r ProjectName>,
) -> Result<Vec<LinePart<'r>>, AllocError>
    ensures { IfOk result (λ parts. map (λ p. p.text.now) parts.items ≡ texts_in rows.now (option_copied first.entry)) }
{
    let mut parts = Vec::new(alloc);
    let mut next = first;
    let mut left = MOST_DEPTH;
    while left > 0 {
        let Some(project) = next else {
            return Ok(parts);
        };
        let Some(file) = own_file(rows, project)? else {
            return Ok(parts);
        };
        let text = &file.text;
        parts.push(LinePart { project, text })?;
        next = file.parent.as_ref();
        left -= 1;
    }
    Ok(parts)
}

// Why a stored line, which should spell a file, is not read.
fn unread_cause(fault: ReadFault) -> NotTaken
    ensures { result ≡ unread_cause fault }
{
    match fault {
        ReadFault::Memory => NotTaken::Memory,
        ReadFault::Pattern => NotTaken::Pattern,
        ReadFault::File(_) => NotTaken::Damaged,
    }
}
