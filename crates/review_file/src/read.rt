//! Reading a project file.
ghost use Rattle.std.specs.Prelude.{◌≡◌, ◌≢◌, false, IfOk, IfErr, length, nat_lt, option_map};
ghost use Rattle.toml.specs.{Data.table, Parse.parse_document, View.table_view, View.view};
ghost use Rattle.review_file_document.specs.Limits.{most_bytes};
ghost use Rattle.review_file_rules.specs.Expressions.{IsFile, IsStoppedBy, has_unknown_label};
ghost use Rattle.review_file_rules.specs.Patterns.{HasPattern};
ghost use Rattle.review_file_rules.specs.Reading.{IsFaultless, IsRead, IsReadFault, IsDocumentFault, first_fault, named_parent};
ghost use Rattle.review_file_rules.specs.Spelled.{parent_in, spelled};

use crate::access::read_access;
use crate::file::{Content, ProjectFile};
use crate::labels::labels_in;
use crate::requirements::requirements_in;
use crate::unknown::has_unknown_label;
use review_expr::ParseFault;
use review_file_document::document::{copied_text, text_at};
use review_file_document::keys::{has_unknown_key, lacks_key};
use review_file_document::limits::{MOST_BYTES, is_past_limits};
use review_file_document::names::{has_bad_name, name_of};
use review_file_document::values::{has_bad_values, has_value_twice};
use review_file_rules::ReadFault;
use review_names::places::OfProject;
use review_words::{FileFault, FileText, ProjectName};
use std::alloc::{AllocError, Global};
use toml::Value;

/// The first fault of a document but those of its expressions and its limits.
fn first_fault(file: &Value) -> Option<FileFault>
    ensures { result ≡ first_fault (view file.now) }
{
    if has_unknown_key(file) {
        return Some(FileFault::UnknownKey);
    }
    if lacks_key(file) {
        return Some(FileFault::Missing);
    }
    if has_bad_name(file) {
        return Some(FileFault::BadName);
    }
    if has_value_twice(file) {
        return Some(FileFault::Twice);
    }
    if has_bad_values(file) {
        return Some(FileFault::BadValues);
    }
    None
}

/// The parent that a document names.
fn parent_in(alloc: Global, file: &Value) -> Result<Option<ProjectName>, AllocError>
    ensures { IfOk result (λ parent. parent ≡ parent_in (view file.now)) }
{
    match text_at(file, "parent") {
        Some(text) => name_of::<OfProject>(alloc, text),
        None => Ok(None),
    }
}

/// What a document without first faults spells.
fn content_in(alloc: Global, file: &Value) -> Result<Content, ParseFault>
    ensures read { IfOk result (IsFile (spelled (view file.now))) }
    ensures fault { IfErr result (λ f. f ≢ ParseFault.Memory → IsStoppedBy (spelled (view file.now)) f) }
{
    let parent = parent_in(alloc, file)?;
    let description = copied_text(alloc, file, "description")?;
    let access = read_access(alloc, file)?;
    let labels = labels_in(alloc, file)?;
    let requirements = requirements_in(alloc, file)?;
    Ok(Content {
        parent,
        description,
        access,
        labels,
        requirements,
    })
}

#[tactic(auto, using(review_file_rules::proofs::Together::least_first))]
fn read_document(alloc: Global, file: &Value) -> Result<Content, ReadFault>
    ensures read { IfOk result (IsFaultless (view file.now)) }
    ensures fault { IfErr result (IsDocumentFault (view file.now)) }
{
    if let Some(fault) = first_fault(file) {
        return Err(ReadFault::File(fault));
    }
    let content = content_in(alloc, file)?;
    if has_unknown_label(alloc, &content)? {
        return Err(ReadFault::File(FileFault::UnknownLabel));
    }
    if is_past_limits(file) {
        return Err(ReadFault::File(FileFault::Limit));
    }
    Ok(content)
}

// Whether a text is too long to be read.
fn is_too_long(text: &str) -> bool
    ensures { result ≡ nat_lt most_bytes (length text.now) }
{
    text.len() > MOST_BYTES
}

// The document that a text is, if it is one.
fn document_in(alloc: Global, text: &str) -> Result<Option<Value>, AllocError>
    ensures { IfOk result (λ document. option_map view document ≡ option_map table (parse_document text.now)) }
{
    match toml::table_from_str(alloc, text) {
        Ok(table) => Ok(Some(Value::Table(table))),
        Err(error) => {
            if error.is_memory() {
                Err(AllocError)
            } else {
                Ok(None)
            }
        }
    }
}

/// The parent that a text names, whose file isn't read for it; none where the text is too long to be read, or no document.
pub fn named_parent(alloc: Global, text: &FileText) -> Result<Option<ProjectName>, AllocError>
    ensures { IfOk result (λ parent. parent ≡ named_parent text.now) }
{
    let text = text.as_str();
    if is_too_long(text) {
        return Ok(None);
    }
    match document_in(alloc, text)? {
        Some(document) => parent_in(alloc, &document),
        None => Ok(None),
    }
}

fn read_content(alloc: Global, text: &str) -> Result<Content, ReadFault>
    ensures read { IfOk result (IsRead text.now) }
    ensures fault { IfErr result (IsReadFault text.now) }
{
    if is_too_long(text) {
        return Err(ReadFault::File(FileFault::Limit));
    }
    match document_in(alloc, text)? {
        Some(document) => read_document(alloc, &document),
        None => Err(ReadFault::File(FileFault::Toml)),
    }
}

/// Reads a project file. A text that is none is refused for the first fault that applies, in the
/// order of [`FileFault`], but for one of more than 65,536 bytes, which isn't looked at and is
/// refused for its length. The empty text is a file without rights, labels and requirements. The
/// requirements of a file name its labels alone.
///
/// Pattern: an expression has a pattern that the engine refuses for another cause than its syntax,
/// and all expressions before it are good. Memory: there was none for the file.
#[tactic(auto, using(crate::proofs::SoundLabels::known_labels))]
pub fn read_file(alloc: Global, text: &str) -> Result<ProjectFile, ReadFault>
    ensures read { IfOk result (IsRead text.now) }
    ensures known { IfOk result (λ f. has_unknown_label f ≡ false) }
    ensures fault { IfErr result (IsReadFault text.now) }
    ensures pattern { IfErr result (λ f. f ≡ ReadFault.Pattern → HasPattern text.now) }
{
    match read_content(alloc, text) {
        Ok(content) => Ok(ProjectFile::new(alloc, content)?),
        Err(fault) => Err(fault),
    }
}
