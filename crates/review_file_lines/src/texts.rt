//! A text with the file that it spells.
ghost use Rattle.std.specs.Prelude.{◌≡◌, IfOk, IfErr};
ghost use Rattle.review_file_rules.specs.{Patterns.HasPattern, Reading.IsRead, Reading.IsReadFault};

use review_file::{ProjectFile, read_file};
use review_file_rules::ReadFault;
use review_words::FileText;
use std::alloc::Global;
use std::marker::Model;

/// A text and the project file that it spells.
#[derive(Drop)]
pub struct ReadText {
    text: FileText,
    file: ProjectFile,
}

impl Model for ReadText {
    ghost use Rattle.{std.specs.Coded.codes, review_file_rules.specs.Reading.IsRead};
    ghost use Rattle.review_file_lines.specs.Texts.{TextView};
    ghost use Rattle.review_expr.specs.contracts.expr.Expr as expr;

    ghost Value = { TextView };

    ghost coded = { Prim.hlevel (codes, expr.the_row.coded) };

    ghost view = { λ r. record { text = r.text; file = r.file } };

    ghost invariant = { λ r. IsRead r.text r.file };
}

impl ReadText {
    /// Reads a text as `read_file` does, and keeps a copy of it. The faults are those of `read_file`.
    pub fn read(alloc: Global, text: &FileText) -> Result<ReadText, ReadFault>
        ensures text { IfOk result (λ r. r.text ≡ text.now) }
        ensures read { IfOk result (λ r. IsRead text.now r.file) }
        ensures fault { IfErr result (IsReadFault text.now) }
        ensures pattern { IfErr result (λ f. f ≡ ReadFault.Pattern → HasPattern text.now) }
    {
        let file = read_file(alloc, text.as_str())?;
        match text.copy() {
            Ok(text) => Ok(ReadText { text, file }),
            Err(_) => Err(ReadFault::Memory),
        }
    }

    /// The file.
    pub fn file(&self) -> &ProjectFile
        ensures file { result.now ≡ self.now.file }
        ensures read { IsRead self.now.text self.now.file }
    {
        &self.file
    }

    /// The text.
    pub fn text(&self) -> &FileText
        ensures { result.now ≡ self.now.text }
    {
        &self.text
    }

    /// The text alone.
    pub(crate) fn into_text(self) -> FileText
        ensures { result ≡ self.text }
    {
        self.text
    }
}
