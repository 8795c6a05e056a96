//! Decisions on the files of projects.
ghost use Rattle.std.specs.Option.{option_map_or};
ghost use Rattle.std.specs.Prelude.{◌≡◌, ◌≢◌, ◌⊎◌, [], List, IfOk, IfErr, IfSome, Some, None, is_some, length, option_copied, option_map, true, false};
ghost use Rattle.review_words.specs.{History.Entry, History.is_account, Texts.IsStored};
ghost use Rattle.review_words.specs.declared.{command.Command.TheVariants.PutProject, reply.Answer.TheVariants.Nothing};
ghost use Rattle.review_words.specs.declared.reply.{NotTaken.TheVariants.Memory, Refusal.TheVariants.BadFile};
ghost use Rattle.review_words.specs.declared.reply.Reply.TheVariants.{Done, Refused};
ghost use Rattle.review_file_rules.specs.declared.fault.ReadFault.TheVariants.{File};
ghost use Rattle.review_machine_rows.specs.{Answer.first_refusal, Answer.is_same_parent, Changes.Reading};
ghost use Rattle.review_machine_rows.specs.Decisions.{IsUndecided, IsUnread, NamesEachOnce};
ghost use Rattle.review_machine_rows.specs.{Rows.HasNoEffect, Steps.OfCommand, Steps.own_in, Steps.texts_in};
ghost use Rattle.review_machine_rows.specs.View.{AreEnough, IsDecided};
ghost use Rattle.review_machine_accounts.specs.Decisions.{IsEmpty};
ghost use Rattle.review_machine_needs.specs.inner.Files.{has_unknown, heir, keeps_parent, kept_checks, parent_checks, room_in, IsFilePut, IsPut, IsPutBelow, IsReadCause, PutsFile};

use crate::lines::own_file;
use crate::reading::read_line;
use review_file::{ProjectFile, ReadFault, covers};
use review_file_lines::{FileMemo, InheritFault, MOST_DEPTH, ReadLine, ReadText};
use review_file_rules::one_effective_file;
use review_machine_accounts::{is_admin, nothing, refused};
use review_machine_rows::{Counted, Delta, Put, Rows, StoredFile, Want};
use review_words::{AccountNo, Answer, FileFault, FileText, NotTaken, ProjectName, Refusal, Reply};
use std::alloc::{AllocError, Global};

/// Puts the file of a project, which had this effective file, if any. Refused: a caller that is no administrator, a text that is no file, a parent
/// that isn't the project's, one that isn't there, or has the greatest depth, a requirement that names a label that isn't among the effective ones, a
/// label or a value that goes from the effective file, or one project more than the most, in this order. The file that is put is remembered, where
/// there is memory for it.
pub fn put_project(
    alloc: Global,
    memo: &mut FileMemo,
    effective: Option<&ProjectFile>,
    rows: &Rows,
    caller: AccountNo,
    project: &ProjectName,
    file: &FileText,
) -> Result<(Delta, Reply), NotTaken>
    ensures decided { IfOk result (λ r. (reading : Reading) (h : List Entry) → is_account h caller ≡ true → AreEnough reading h caller (OfCommand (PutProject project.now file.now)) (option_copied effective.entry) rows.now → IsDecided reading h caller (PutProject project.now file.now) r.0 r.1) }
    ensures cause { IfErr result (IsUndecided caller (PutProject project.now file.now) (option_copied effective.entry) rows.now) }
    ensures stored { IfOk result (λ r. IsStored r.1) }
    ensures refused { IfOk result (λ r. HasNoEffect r.1 r.0) }
    ensures epoch { IfOk result (λ r. r.0.least_epoch ≡ None) }
    ensures once { IfOk result (λ r. NamesEachOnce r.0) }
{
    one_effective_file();
    let admin = is_admin(alloc, rows, caller)?;
    if !admin {
        return Ok(refused(alloc, Refusal::NotAdmin));
    }
    match memo.read_text(alloc, file) {
        Ok(new) => put_file(alloc, memo, effective, rows, project, new),
        Err(fault) => refuse_file(alloc, fault),
    }
}

// Refuses a text that is no project file.
fn refuse_file(alloc: Global, fault: ReadFault) -> Result<(Delta, Reply), NotTaken>
    ensures file { IfOk result (λ r. IsEmpty r.0 × ((f : FileFault) × (fault ≡ File f) × (r.1 ≡ Refused (BadFile f)))) }
    ensures cause { IfErr result (IsReadCause fault) }
    ensures stored { IfOk result (λ r. IsStored r.1) }
    ensures epoch { IfOk result (λ r. r.0.least_epoch ≡ None) }
{
    match fault {
        ReadFault::File(fault) => Ok(refused(alloc, Refusal::BadFile(fault))),
        ReadFault::Memory => Err(NotTaken::Memory),
        ReadFault::Pattern => Err(NotTaken::Pattern),
    }
}

// Puts a file in place of the one that the project has, whose parent it keeps.
fn put_file(
    alloc: Global,
    memo: &mut FileMemo,
    effective: Option<&ProjectFile>,
    rows: &Rows,
    project: &ProjectName,
    new: ReadText,
) -> Result<(Delta, Reply), NotTaken>
    ensures put { IfOk result (λ r. IsPut rows.now (option_copied effective.entry) project.now (record { text = new.text; parent = new.file.parent }) new.file r.0 r.1) }
    ensures cause { IfErr result (λ cause. (cause ≡ Memory) ⊎ ((keeps_parent (own_in rows.now project.now) new.file.parent ≡ true) × IsUnread (texts_in rows.now new.file.parent) cause)) }
    ensures stored { IfOk result (λ r. IsStored r.1) }
    ensures refused { IfOk result (λ r. HasNoEffect r.1 r.0) }
    ensures epoch { IfOk result (λ r. r.0.least_epoch ≡ None) }
    ensures once { IfOk result (λ r. NamesEachOnce r.0) }
{
    let put = row_put(project, &new)?;
    let keeps = keeps_parent(rows, &put)?;
    if !keeps {
        drop(put);
        drop(new);
        return Ok(refused(alloc, Refusal::ParentFixed));
    }
    put_below(alloc, memo, effective, rows, put, new)
}

// The row of a project that gets this file.
fn row_put(
    project: &ProjectName,
    new: &ReadText,
) -> Result<Put<ProjectName, StoredFile>, AllocError>
    ensures { IfOk result (λ put. put ≡ record { key = project.now; row = record { text = new.now.text; parent = new.now.file.parent } }) }
{
    let key = project.copy()?;
    let text = new.text().copy()?;
    let parent = new.file().copied_parent()?;
    let row = StoredFile { text, parent };
    Ok(Put { key, row })
}

// Whether a project keeps its parent, if it is there.
fn keeps_parent(rows: &Rows, put: &Put<ProjectName, StoredFile>) -> Result<bool, AllocError>
    ensures { IfOk result (λ keeps. keeps ≡ keeps_parent (own_in rows.now put.now.key) put.now.row.parent) }
{
    match own_file(rows, &put.key)? {
        Some(was) => Ok(is_same_parent(was.parent.as_ref(), put.row.parent.as_ref())),
        None => Ok(true),
    }
}

// Whether two projects, or none, are the same.
fn is_same_parent(was: Option<&ProjectName>, now: Option<&ProjectName>) -> bool
    ensures { result ≡ is_same_parent (option_copied was.entry) (option_copied now.entry) }
{
    match (was, now) {
        (None, None) => true,
        (Some(was), Some(now)) => *was == *now,
        _ => false,
    }
}

// Puts a file below the line of its parent, if it has one.
fn put_below(
    alloc: Global,
    memo: &mut FileMemo,
    effective: Option<&ProjectFile>,
    rows: &Rows,
    put: Put<ProjectName, StoredFile>,
    new: ReadText,
) -> Result<(Delta, Reply), NotTaken>
    ensures put { IfOk result (λ r. IsPutBelow rows.now (option_copied effective.entry) put.key put.row new.file r.0 r.1) }
    ensures cause { IfErr result (IsUnread (texts_in rows.now put.row.parent)) }
    ensures stored { IfOk result (λ r. IsStored r.1) }
    ensures refused { IfOk result (λ r. HasNoEffect r.1 r.0) }
    ensures epoch { IfOk result (λ r. r.0.least_epoch ≡ None) }
    ensures once { IfOk result (λ r. NamesEachOnce r.0) }
{
    let above = read_line(alloc, memo, rows, put.row.parent.as_ref())?;
    let depth = depth_of(above.as_ref());
    if let Some(refusal) = parent_refused(put.row.parent.is_some(), depth) {
        drop(above);
        drop(put);
        drop(new);
        return Ok(refused(alloc, refusal));
    }
    match line_put(alloc, above, new) {
        Ok(line) => put_line(alloc, memo, effective, rows, put, line),
        Err(InheritFault::UnknownLabel) => {
            drop(put);
            Ok(refused(alloc, Refusal::BadFile(FileFault::UnknownLabel)))
        }
        Err(InheritFault::Memory) => {
            drop(put);
            Err(NotTaken::Memory)
        }
    }
}

// How many projects a line has.
fn depth_of(line: Option<&ReadLine>) -> usize
    ensures { result ≡ length (option_map_or (λ l. l.texts) (option_copied line.entry) []) }
{
    match line {
        Some(line) => line.depth(),
        None => 0,
    }
}

// What refuses a parent, by whether one is named, and how many projects its line has.
fn parent_refused(is_named: bool, depth: usize) -> Option<Refusal>
    ensures refusal { result ≡ first_refusal (parent_checks is_named depth) }
    ensures stored { IfSome result (λ r. IsStored (Refused r)) }
{
    if is_named && depth == 0 {
        return Some(Refusal::NoParent);
    }
    if depth >= MOST_DEPTH {
        return Some(Refusal::ParentDepth);
    }
    None
}

// The line of a project that gets this file, below the line of its parent, if it has one.
fn line_put(alloc: Global, above: Option<ReadLine>, new: ReadText) -> Result<ReadLine, InheritFault>
    ensures file { IfOk result (λ l. l.file ≡ heir (option_map (λ a. a.file) above) new.file) }
    ensures known { IfOk result (λ l. has_unknown (option_map (λ a. a.file) above) new.file ≡ false) }
    ensures fault { IfErr result (λ e. e ≢ InheritFault.Memory → has_unknown (option_map (λ a. a.file) above) new.file ≡ true) }
{
    match above {
        Some(above) => above.inherit(alloc, new),
        None => Ok(ReadLine::first(alloc, new)?),
    }
}

// Puts a row, whose project gets this line, in place of the one that it has.
fn put_line(
    alloc: Global,
    memo: &mut FileMemo,
    effective: Option<&ProjectFile>,
    rows: &Rows,
    put: Put<ProjectName, StoredFile>,
    line: ReadLine,
) -> Result<(Delta, Reply), NotTaken>
    ensures put { IfOk result (λ r. IsFilePut (first_refusal (kept_checks (option_copied effective.entry) (room_in rows.now) line.file)) put.key put.row r.0 r.1) }
    ensures cause { IfErr result (λ cause. cause ≡ Memory) }
    ensures stored { IfOk result (λ r. IsStored r.1) }
    ensures refused { IfOk result (λ r. HasNoEffect r.1 r.0) }
    ensures epoch { IfOk result (λ r. r.0.least_epoch ≡ None) }
    ensures once { IfOk result (λ r. NamesEachOnce r.0) }
{
    let want = Want::Room(Counted::Projects);
    let has_room = rows.is_so(&want);
    drop(want);
    if let Some(refusal) = kept_refused(effective, has_room, line.file()) {
        return Ok(refused(alloc, refusal));
    }
    let _ = memo.keep(&put.key, line);
    Ok(put_row(alloc, put))
}

// What refuses a new effective file, by the one that the project has, if any, and whether there is room for one more project.
fn kept_refused(
    effective: Option<&ProjectFile>,
    has_room: bool,
    new: &ProjectFile,
) -> Option<Refusal>
    ensures refusal { result ≡ first_refusal (kept_checks (option_copied effective.entry) has_room new.now) }
    ensures stored { IfSome result (λ r. IsStored (Refused r)) }
{
    match effective {
        Some(old) => {
            if covers(old, new) {
                None
            } else {
                Some(Refusal::LabelNarrowed)
            }
        }
        None => { if has_room { None } else { Some(Refusal::Limit) } }
    }
}

// The change that puts the row of a project.
fn put_row(alloc: Global, put: Put<ProjectName, StoredFile>) -> (Delta, Reply)
    ensures reply { result.1 ≡ Done Nothing }
    ensures delta { PutsFile put.key put.row result.0 }
    ensures once { NamesEachOnce result.0 }
{
    let mut delta = nothing(alloc);
    delta.file = Some(put);
    (delta, Reply::Done(Answer::Nothing))
}
