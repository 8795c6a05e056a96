//! The lines of an input.
ghost use Rattle.std.specs.Io.KnownBytes.{Consumes, IsAtEnd, Keeps, prepend_known};
ghost use Rattle.std.specs.Prelude.{◌≡◌, ◌≤◌, ◌+◌, ◌++◌, ◌∷◌, [], ℕ, List, length, drop, ◌==◌, true, false, Err, IfOk, OnOk, OnErr};
ghost use Rattle.review_json_lines.specs.Lines.{IsLineOf, HasNoEnd, HoldsEnd, IsNext};
ghost use Rattle.review_json_lines.specs.inner.Words.{GavePart, most_reads};

use memchr::memchr;
use std::alloc::{AllocError, Global};
use std::io;
use std::io::Read;
use std::marker::Model;

/// The most bytes of a line, without its end.
const MOST_BYTES: usize = 400_000;

/// The most reads of an input.
const MOST_READS: u32 = 1_000_000_000;

/// How many bytes are asked for at once.
const PIECE_BYTES: usize = 65_536;

/// A line without its end.
#[derive(Drop)]
pub enum Line {
    Whole(Vec<u8>),
    /// It has more than 400,000 bytes, which were skipped.
    TooLong,
}

impl Line {
    fn new(alloc: Global) -> Line
        ensures { IsLineOf result [] }
    {
        Line::Whole(Vec::new(alloc))
    }

    fn is_empty(&self) -> bool
        ensures { (bytes : List ℕ) → IsLineOf self.now bytes → result ≡ (length bytes == 0) }
    {
        match self {
            Line::TooLong => false,
            Line::Whole(bytes) => bytes.is_empty(),
        }
    }

    /// Adds bytes at the end.
    fn extend(self, part: &[u8]) -> Result<Line, AllocError>
        ensures { IfOk result (λ line. (bytes : List ℕ) → IsLineOf self bytes → IsLineOf line (bytes ++ part.now)) }
    {
        match self {
            Line::TooLong => Ok(Line::TooLong),
            Line::Whole(bytes) => {
                if bytes.len().saturating_add(part.len()) > MOST_BYTES {
                    return Ok(Line::TooLong);
                }
                let mut bytes = bytes;
                bytes.extend_from_slice(part)?;
                Ok(Line::Whole(bytes))
            }
        }
    }
}

/// Bytes that were read and aren't part of a line yet. Contracts see these.
#[derive(Drop)]
struct Piece {
    bytes: Vec<u8>,
    start: usize,
    end: usize,
}

impl Model for Piece {
    ghost use Rattle.std.specs.Prelude.{ℕ, List, length, ◌≤◌, ◌<◌, slice_range};

    ghost Value = { List ℕ };

    ghost view = { λ p. slice_range p.bytes.items p.start p.end };

    ghost invariant = { λ p. (p.start ≤ p.end) × (p.end ≤ length p.bytes.items) × (0 < length p.bytes.items) };
}

impl Piece {
    fn new(alloc: Global) -> Result<Piece, AllocError>
        ensures { IfOk result (λ p. p ≡ []) }
    {
        let bytes = vec![in alloc; 0u8; PIECE_BYTES]?;
        Ok(Piece {
            bytes,
            start: 0,
            end: 0,
        })
    }

    /// Reads once, where all bytes were taken: false where the input ended.
    fn fill<R: Read>(&mut self, reader: &mut R) -> io::Result<bool>
        requires taken { self.old ≡ [] }
        ensures gave { OnOk result (Consumes (R.remaining reader.old) (R.remaining reader.new) self.new) }
        ensures end { IfOk result (λ came. came ≡ false → (self.new ≡ []) × IsAtEnd (R.remaining reader.new)) }
    {
        self.start = 0;
        self.end = 0;
        let count = reader.read(self.bytes.as_mut_slice())?;
        self.end = count;
        Ok(count > 0)
    }

    fn as_slice(&self) -> &[u8]
        ensures { result.now ≡ self.now }
    {
        &self.bytes[self.start..self.end]
    }

    /// Takes bytes from the front.
    fn take(&mut self, count: usize)
        requires { count ≤ length self.old }
        ensures { self.new ≡ drop count self.old }
    {
        self.start += count;
    }

    /// Takes the bytes up to the end of a line, and that end, or all where there is none: whether there was one.
    fn take_part(&mut self, line: Line) -> Result<(Line, bool), AllocError>
        ensures { IfOk result (λ taken. (part : List ℕ) × GavePart taken.1 self.old self.new part × HasNoEnd part
            × ((bytes : List ℕ) → IsLineOf line bytes → IsLineOf taken.0 (bytes ++ part))) }
    {
        let unread = self.as_slice();
        match memchr(b'\n', unread) {
            Some(at) => {
                let line = line.extend(&unread[..at])?;
                self.take(at + 1);
                Ok((line, true))
            }
            None => {
                let line = line.extend(unread)?;
                let count = unread.len();
                self.take(count);
                Ok((line, false))
            }
        }
    }
}

/// Why no line was read.
#[derive(Clone, Copy, PartialEq, Eq)]
pub enum LineFault {
    /// The reader failed.
    Input,
    /// The reader gave no end in 1,000,000,000 reads.
    Endless,
    /// There was no memory for the line.
    Memory,
}

impl From<AllocError> for LineFault {
    ghost use Rattle.review_json_lines.specs.declared.lines.LineFault.TheVariants.{Memory};

    ghost from_gives = { λ _ e. e ≡ Memory };

    fn from(_error: AllocError) -> LineFault {
        LineFault::Memory
    }
}

/// The lines of a reader, one after the other.
///
/// A line ends in LF, which the last may lack. After an `Err` a part of a line may be lost.
#[derive(Drop)]
pub struct Lines<R> {
    reader: R,
    piece: Piece,
    reads: u32,
}

impl<R: Read + Drop> Lines<R> {
    pub fn new(alloc: Global, reader: R) -> Result<Lines<R>, AllocError>
        ensures { IfOk result (λ lines. prepend_known lines.piece (R.remaining lines.reader) ≡ R.remaining reader) }
    {
        Ok(Lines {
            reader,
            piece: Piece::new(alloc)?,
            reads: 0,
        })
    }

    /// Reads once more: false where the input ended.
    fn read(&mut self) -> Result<bool, LineFault>
        requires taken { self.old.piece ≡ [] }
        ensures kept { OnOk result (Consumes (prepend_known self.old.piece (R.remaining self.old.reader)) (prepend_known self.new.piece (R.remaining self.new.reader)) []) }
        ensures end { IfOk result (λ came. came ≡ false → IsAtEnd (prepend_known self.new.piece (R.remaining self.new.reader))) }
        ensures counted { OnOk result (self.new.reads ≡ self.old.reads + 1) }
        ensures endless { result ≡ Err LineFault.Endless → (self.new.reads ≡ self.old.reads) × (most_reads ≤ self.old.reads) }
    {
        if self.reads >= MOST_READS {
            return Err(LineFault::Endless);
        }
        self.reads += 1;
        match self.piece.fill(&mut self.reader) {
            Ok(came) => Ok(came),
            Err(_) => Err(LineFault::Input),
        }
    }

    /// Whether the end of the next line was read.
    pub fn holds_line(&self) -> bool
        ensures { HoldsEnd result self.now.piece }
    {
        memchr(b'\n', self.piece.as_slice()).is_some()
    }

    /// The next line, or none where the input has ended.
    pub fn next_line(&mut self, alloc: Global) -> Result<Option<Line>, LineFault>
        ensures { IfOk result (λ next. IsNext (prepend_known self.old.piece (R.remaining self.old.reader)) (prepend_known self.new.piece (R.remaining self.new.reader)) next) }
    {
        let mut line = Line::new(alloc);
        for _ in 0..=MOST_READS {
            let (longer, has_ended) = self.piece.take_part(line)?;
            line = longer;
            if has_ended {
                return Ok(Some(line));
            }
            if !self.read()? {
                if line.is_empty() {
                    return Ok(None);
                }
                return Ok(Some(line));
            }
        }
        Err(LineFault::Endless)
    }
}
