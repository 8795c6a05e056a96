//! Effective files that were read before, so that one is read once as long as the texts of its line stay. What is remembered is held to these texts
//! byte for byte, so it is right whatever texts a project and its ancestors have by now.
ghost use Rattle.std.specs.{BTreeMap.is_at, Cmp.Lexicographic.slice_cmp, List.All, Ordering.nat_cmp};
ghost use Rattle.std.specs.Prelude.{◌≡◌, ◌∷◌, false, IfOk, IfErr, OnOk, OnErr, Some, None, [], if◌then◌else◌, map};
ghost use Rattle.review_table.specs.Rows.{row_in, rows_of};
ghost use Rattle.review_file_rules.specs.Patterns.{HasPattern};
ghost use Rattle.review_file_rules.specs.Reading.{IsRead, IsReadFault, named_parent};
ghost use Rattle.review_file_lines.specs.{Kept.IsKept, Texts.IsLineFault};

use crate::lines::{LinePart, ReadLine, is_same};
use crate::texts::ReadText;
use review_file::named_parent;
use review_file_rules::ReadFault;
use review_table::{Key, Table};
use review_words::{FileText, ProjectName};
use std::alloc::{AllocError, Global};

/// The effective file that each project had when it was last read, with the texts of its line; and a text that was read ahead, since it was asked for
/// the parent that it names.
#[derive(Drop)]
pub struct FileMemo {
    lines: Table<ProjectName, ReadLine>,
    ahead: Option<ReadText>,
}

impl FileMemo {
    /// Nothing is remembered.
    pub fn new(alloc: Global) -> FileMemo
        ensures { rows_of result.lines ≡ [] }
    {
        FileMemo {
            lines: Table::new(alloc),
            ahead: None,
        }
    }

    /// The parent that a text names; none where the text is too long to be read, or no document. Where the text spells a file, this is read
    /// ahead, for `read_text`.
    #[tactic(auto, using(review_file::proofs::Parents::parent_named))]
    pub fn named_parent(
        &mut self,
        alloc: Global,
        text: &FileText,
    ) -> Result<Option<ProjectName>, AllocError>
        ensures parent { IfOk result (λ parent. parent ≡ named_parent text.now) }
        ensures same { rows_of self.new.lines ≡ rows_of self.old.lines }
    {
        match self.read_text(alloc, text) {
            Ok(read) => {
                let parent = read.file().copied_parent()?;
                self.ahead = Some(read);
                Ok(parent)
            }
            Err(ReadFault::Memory) => Err(AllocError),
            Err(ReadFault::File(_) | ReadFault::Pattern) => named_parent(alloc, text),
        }
    }

    /// A text with the file that it spells: what was read ahead, where that was this very text, and else read now. The faults are those of
    /// `read_file`.
    pub fn read_text(&mut self, alloc: Global, text: &FileText) -> Result<ReadText, ReadFault>
        ensures text { IfOk result (λ r. r.text ≡ text.now) }
        ensures read { IfOk result (λ r. IsRead text.now r.file) }
        ensures fault { IfErr result (IsReadFault text.now) }
        ensures pattern { IfErr result (λ f. f ≡ ReadFault.Pattern → HasPattern text.now) }
        ensures same { rows_of self.new.lines ≡ rows_of self.old.lines }
        ensures none { self.new.ahead ≡ None }
    {
        match self.ahead.take() {
            Some(read) if is_same(read.text(), text) => {
                let _ = read.file();
                Ok(read)
            }
            Some(_) | None => ReadText::read(alloc, text),
        }
    }

    /// Remembers the line of a project in place of what was remembered. An `Err` changes nothing.
    pub fn keep(&mut self, project: &ProjectName, line: ReadLine) -> Result<(), AllocError>
        ensures kept { OnOk result ((q : _) → row_in (slice_cmp nat_cmp) (rows_of self.new.lines) q ≡ (if is_at (slice_cmp nat_cmp project.now) q then Some line else row_in (slice_cmp nat_cmp) (rows_of self.old.lines) q)) }
        ensures same { OnErr result (rows_of self.new.lines ≡ rows_of self.old.lines) }
    {
        let key = project.copy()?;
        self.lines.put(key, line)
    }

    /// The line of a project whose ancestors are these, the parent first: what is remembered, where it was read from these very texts; else the
    /// own text is read, and goes on from the line of the parent, which is told in the same way; and the line is remembered, where there is memory
    /// for that. What is remembered of other projects stays. Pattern: the engine refuses a pattern in one of the texts. File: the texts spell no
    /// effective file. Memory also where something remembered has as many copies as can be counted.
    #[cycle(lines)]
    pub fn get(
        &mut self,
        alloc: Global,
        own: &LinePart<'_>,
        above: &[LinePart<'_>],
    ) -> Result<ReadLine, ReadFault>
        ensures texts { IfOk result (λ l. l.texts ≡ own.now.text.now ∷ map (λ p. p.text.now) above.now) }
        ensures fault { IfErr result (IsLineFault (own.now.text.now ∷ map (λ p. p.text.now) above.now)) }
        ensures others { (q : _) → is_at (slice_cmp nat_cmp own.now.project.now) q ≡ false → All (λ p. is_at (slice_cmp nat_cmp p.project.now) q ≡ false) above.now →
            row_in (slice_cmp nat_cmp) (rows_of self.new.lines) q ≡ row_in (slice_cmp nat_cmp) (rows_of self.old.lines) q }
        ensures each { (q : _) → IsKept (own.now ∷ above.now) q (row_in (slice_cmp nat_cmp) (rows_of self.old.lines) q) (row_in (slice_cmp nat_cmp) (rows_of self.new.lines) q) }
    {
        match self.lines.get(own.project) {
            Some(line) if line.is_of(own, above) => Ok(line.copy()?),
            Some(_) | None => self.read(alloc, own, above),
        }
    }

    /// Reads the own text, which goes on from the line of the parent, and remembers the line, where there is memory for that.
    #[cycle(lines)]
    fn read(
        &mut self,
        alloc: Global,
        own: &LinePart<'_>,
        above: &[LinePart<'_>],
    ) -> Result<ReadLine, ReadFault>
        ensures texts { IfOk result (λ l. l.texts ≡ own.now.text.now ∷ map (λ p. p.text.now) above.now) }
        ensures fault { IfErr result (IsLineFault (own.now.text.now ∷ map (λ p. p.text.now) above.now)) }
        ensures others { (q : _) → is_at (slice_cmp nat_cmp own.now.project.now) q ≡ false → All (λ p. is_at (slice_cmp nat_cmp p.project.now) q ≡ false) above.now →
            row_in (slice_cmp nat_cmp) (rows_of self.new.lines) q ≡ row_in (slice_cmp nat_cmp) (rows_of self.old.lines) q }
        ensures each { (q : _) → IsKept (own.now ∷ above.now) q (row_in (slice_cmp nat_cmp) (rows_of self.old.lines) q) (row_in (slice_cmp nat_cmp) (rows_of self.new.lines) q) }
    {
        let read = ReadText::read(alloc, own.text)?;
        let line = self.after(alloc, read, above)?;
        let kept = line.copy()?;
        let _ = self.keep(own.project, kept);
        Ok(line)
    }

    /// The line of a project with this file of its own, whose ancestors are these.
    #[cycle(lines)]
    fn after(
        &mut self,
        alloc: Global,
        own: ReadText,
        above: &[LinePart<'_>],
    ) -> Result<ReadLine, ReadFault>
        ensures texts { IfOk result (λ l. l.texts ≡ own.text ∷ map (λ p. p.text.now) above.now) }
        ensures fault { IfErr result (IsLineFault (own.text ∷ map (λ p. p.text.now) above.now)) }
        ensures others { (q : _) → All (λ p. is_at (slice_cmp nat_cmp p.project.now) q ≡ false) above.now → row_in (slice_cmp nat_cmp) (rows_of self.new.lines) q ≡ row_in (slice_cmp nat_cmp) (rows_of self.old.lines) q }
        ensures each { (q : _) → IsKept above.now q (row_in (slice_cmp nat_cmp) (rows_of self.old.lines) q) (row_in (slice_cmp nat_cmp) (rows_of self.new.lines) q) }
    {
        match above {
            [parent, rest @ ..] => Ok(self.get(alloc, parent, rest)?.inherit_stored(alloc, own)?),
            [] => Ok(ReadLine::first(alloc, own)?),
        }
    }
}
