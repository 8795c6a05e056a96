//! The line of a project: it, its parent, and so on.
ghost use Rattle.std.specs.Prelude.{◌≡◌, ◌≢◌, ◌∷◌, ◌↔◌, [], IfOk, IfErr, IsTrue, OnOk, ◌++◌, false, length, map, true};
ghost use Rattle.review_file_rules.specs.Inherited.{IsEffective, inherit, inherits_unknown_label};

use crate::inheriting::{InheritFault, inherit, inherit_stored};
use crate::texts::ReadText;
use review_file::ProjectFile;
use review_words::{FileText, ProjectName};
use std::alloc::{AllocError, Global};
use std::marker::Model;
use std::rc::Rc;

/// The greatest depth of a project: so many projects a line has at most.
pub const MOST_DEPTH: usize = 8;

/// A project of a line, with the text of its own file.
#[derive(Clone, Copy)]
pub struct LinePart<'a> {
    pub project: &'a ProjectName,
    pub text: &'a FileText,
}

/// The texts of a line, the own one first and the parent's next, with the effective file that they spell. Its copies share both.
#[derive(Drop)]
pub struct ReadLine {
    texts: Rc<Vec<FileText>>,
    file: ProjectFile,
}

impl Model for ReadLine {
    ghost use Rattle.{std.specs.Coded.codes, review_file_rules.specs.Inherited.IsEffective};
    ghost use Rattle.review_file_lines.specs.Texts.{LineView};
    ghost use Rattle.review_expr.specs.contracts.expr.Expr as expr;

    ghost Value = { LineView };

    ghost coded = { Prim.hlevel (codes, expr.the_row.coded) };

    ghost view = { λ l. record { texts = l.texts.value.items; file = l.file } };

    ghost invariant = { λ l. IsEffective l.texts.value.items l.file };
}

impl ReadLine {
    /// The line of a project without a parent.
    pub fn first(alloc: Global, own: ReadText) -> Result<ReadLine, AllocError>
        ensures texts { IfOk result (λ l. l.texts ≡ own.text ∷ []) }
        ensures file { IfOk result (λ l. l.file ≡ own.file) }
    {
        let file = own.file().copy()?;
        let mut texts = Vec::new(alloc);
        texts.push(own.into_text())?;
        let texts = Rc::new(alloc, texts)?;
        Ok(ReadLine { texts, file })
    }

    /// The line of a project that is put, whose parent has this line. The faults are those of `inherit`.
    pub fn inherit(&self, alloc: Global, own: ReadText) -> Result<ReadLine, InheritFault>
        ensures texts { IfOk result (λ l. l.texts ≡ own.text ∷ self.now.texts) }
        ensures file { IfOk result (λ l. l.file ≡ inherit self.now.file own.file) }
        ensures known { IfOk result (λ l. inherits_unknown_label self.now.file own.file ≡ false) }
        ensures fault { IfErr result (λ e. e ≢ InheritFault.Memory → inherits_unknown_label self.now.file own.file ≡ true) }
    {
        let file = inherit(alloc, self.file(), own.file())?;
        let texts = self.texts_after(alloc, own)?;
        Ok(ReadLine { texts, file })
    }

    /// The line of a project that is stored, whose parent has this line.
    pub fn inherit_stored(&self, alloc: Global, own: ReadText) -> Result<ReadLine, AllocError>
        ensures texts { IfOk result (λ l. l.texts ≡ own.text ∷ self.now.texts) }
        ensures file { IfOk result (λ l. l.file ≡ inherit self.now.file own.file) }
    {
        let file = inherit_stored(alloc, self.file(), own.file())?;
        let texts = self.texts_after(alloc, own)?;
        Ok(ReadLine { texts, file })
    }

    // The texts after an own one.
    fn texts_after(&self, alloc: Global, own: ReadText) -> Result<Rc<Vec<FileText>>, AllocError>
        ensures { IfOk result (λ texts. texts.value.items ≡ own.text ∷ self.now.texts) }
    {
        let mut texts = Vec::new(alloc);
        texts.push(own.into_text())?;
        push_texts(&mut texts, self.texts())?;
        Ok(Rc::new(alloc, texts)?)
    }

    // The texts.
    fn texts(&self) -> &[FileText]
        ensures { result.now ≡ self.now.texts }
    {
        self.texts.as_ref().as_slice()
    }

    /// A copy of the line, which shares its files and takes no memory. An error where there are as many copies as can be counted.
    pub fn copy(&self) -> Result<ReadLine, AllocError>
        ensures { IfOk result (λ l. l ≡ self.now) }
    {
        let file = self.file.copy()?;
        let texts = self.texts.clone()?;
        Ok(ReadLine { texts, file })
    }

    /// The effective file.
    pub fn file(&self) -> &ProjectFile
        ensures file { result.now ≡ self.now.file }
        ensures effective { IsEffective self.now.texts self.now.file }
    {
        &self.file
    }

    /// The effective file alone.
    pub fn into_file(self) -> ProjectFile
        ensures { result ≡ self.file }
    {
        self.file
    }

    /// How many projects there are in the line.
    pub fn depth(&self) -> usize
        ensures { result ≡ length self.now.texts }
    {
        self.texts().len()
    }

    /// Whether the texts are those of a project and its ancestors, byte for byte.
    pub fn is_of(&self, own: &LinePart<'_>, above: &[LinePart<'_>]) -> bool
        ensures { IsTrue result ↔ (self.now.texts ≡ own.now.text.now ∷ map (λ p. p.text.now) above.now) }
    {
        match self.texts() {
            [first, others @ ..] => is_same(first, own.text) && are_of(others, above),
            [] => false,
        }
    }
}

fn push_texts(texts: &mut Vec<FileText>, more: &[FileText]) -> Result<(), AllocError>
    ensures { OnOk result (texts.new.items ≡ texts.old.items ++ more.now) }
{
    for text in more {
        texts.push(text.copy()?)?;
    }
    Ok(())
}

// Whether two texts are the same.
pub(crate) fn is_same(text: &FileText, other: &FileText) -> bool
    ensures { IsTrue result ↔ (text.now ≡ other.now) }
{
    text.as_str() == other.as_str()
}

// Whether texts are those of these projects.
fn are_of(texts: &[FileText], parts: &[LinePart<'_>]) -> bool
    ensures { IsTrue result ↔ (texts.now ≡ map (λ p. p.text.now) parts.now) }
{
    let [text, others @ ..] = texts else {
        return parts.is_empty();
    };
    let [part, above @ ..] = parts else {
        return false;
    };
    is_same(text, part.text) && are_of(others, above)
}
