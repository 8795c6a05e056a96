//! Cutting a text into words and parentheses.
ghost use Rattle.std.specs.List.{All};
ghost use Rattle.std.specs.Prelude.{◌≡◌, ◌≤◌, ◌<◌, ◌+◌, ◌++◌, ℕ, List, None, length, slice_index, IfOk, IfErr, IsTrue};
ghost use Rattle.review_expr_terms.specs.Lexemes.{IsCut, balanced, all_blank, is_blank};
ghost use Rattle.review_expr_terms.specs.Scanned.{lexemes, IsUncut, IsWithin};
ghost use Rattle.review_expr_terms.specs.inner.Words.{IsUnscanned, IsBehind, scanner_at, begun, advanced};

use std::alloc::{AllocError, AllocFailed, Global};

/// The most bytes that a text has.
pub const MOST_BYTES: usize = 4096;

/// A word, by its first byte and the byte after it, an opening parenthesis, by its place, or a
/// closing one.
#[derive(Clone, Copy, PartialEq, Eq)]
pub enum Piece {
    Word(usize, usize),
    Open(usize),
    Close,
}

/// Why a text is not cut.
#[derive(Clone, Copy, PartialEq, Eq)]
pub enum CutFault {
    /// It has more than 4,096 bytes.
    TooLong,
    /// It has neither a word nor a parenthesis.
    Empty,
    /// A parenthesis or a quote has no other half.
    Unbalanced,
    /// There was no memory for the pieces. It may be tried again.
    Memory,
}

impl From<AllocError> for CutFault {
    ghost use Rattle.std.specs.Prelude.{◌≡◌};
    ghost use Rattle.review_expr_terms.specs.declared.lexemes.CutFault.TheVariants.{Memory};

    ghost from_gives = { λ _ e. e ≡ Memory };

    fn from(_error: AllocError) -> CutFault {
        CutFault::Memory
    }
}

impl<T: Drop> From<AllocFailed<T>> for CutFault {
    ghost use Rattle.std.specs.Prelude.{◌≡◌};
    ghost use Rattle.review_expr_terms.specs.declared.lexemes.CutFault.TheVariants.{Memory};

    ghost from_gives = { λ _ e. e ≡ Memory };

    fn from(_error: AllocFailed<T>) -> CutFault {
        CutFault::Memory
    }
}

/// A scanner between two bytes: the pieces so far, where the open word starts, and whether a quote
/// is open in it.
#[derive(Drop)]
struct Scanner {
    pieces: Vec<Piece>,
    start: Option<usize>,
    quoted: bool,
}

fn is_blank(byte: u8) -> bool
    ensures { result ≡ is_blank byte }
{
    byte == b' ' || byte == b'\t' || byte == b'\n' || byte == b'\r'
}

impl Scanner {
    /// Takes a byte that stands outside words.
    #[tactic(auto, using(crate::proofs::Moves::slice_more))]
    fn begin(mut self, text: &[u8], at: usize) -> Result<Scanner, AllocError>
        requires within { at < length text.now }
        requires outside { self.start ≡ None }
        requires held { All (IsWithin text.now) self.pieces.items }
        ensures moved { IfOk result (λ s. scanner_at text.now (at + 1) s ≡ begun (lexemes text.now self.pieces.items) at (slice_index text.now at)) }
        ensures behind { IfOk result (λ s. IsBehind s (at + 1)) }
        ensures held { IfOk result (λ s. All (IsWithin text.now) s.pieces.items) }
    {
        let byte = text[at];
        if is_blank(byte) {
            return Ok(self);
        }
        if byte == b'(' {
            self.pieces.push(Piece::Open(at))?;
            return Ok(self);
        }
        if byte == b')' {
            self.pieces.push(Piece::Close)?;
            return Ok(self);
        }
        self.start = Some(at);
        self.quoted = byte == b'"';
        Ok(self)
    }

    /// Takes the byte at a place.
    #[tactic(auto, using(crate::proofs::Moves::slice_more))]
    fn step(mut self, text: &[u8], at: usize) -> Result<Scanner, AllocError>
        requires within { at < length text.now }
        requires behind { IsBehind self at }
        requires held { All (IsWithin text.now) self.pieces.items }
        ensures moved { IfOk result (λ s. scanner_at text.now (at + 1) s ≡ advanced (scanner_at text.now at self) at (slice_index text.now at)) }
        ensures behind { IfOk result (λ s. IsBehind s (at + 1)) }
        ensures held { IfOk result (λ s. All (IsWithin text.now) s.pieces.items) }
    {
        let byte = text[at];
        let Some(start) = self.start else {
            return self.begin(text, at);
        };
        if self.quoted {
            self.quoted = byte != b'"';
            return Ok(self);
        }
        if is_blank(byte) || byte == b'(' || byte == b')' {
            self.pieces.push(Piece::Word(start, at))?;
            self.start = None;
            return self.begin(text, at);
        }
        self.quoted = byte == b'"';
        Ok(self)
    }
}

/// The pieces of a text, whatever its length and its parentheses.
fn scanned(alloc: Global, text: &[u8]) -> Result<Vec<Piece>, CutFault>
    ensures cut { IfOk result (λ v. IsCut 0 (lexemes text.now v.items) text.now) }
    ensures within { IfOk result (λ v. All (IsWithin text.now) v.items) }
    ensures fault { IfErr result (IsUnscanned text.now) }
{
    let mut scanner = Scanner {
        pieces: Vec::new(alloc),
        start: None,
        quoted: false,
    };
    for at in 0..text.len() {
        scanner = scanner.step(text, at)?;
    }
    let Some(start) = scanner.start else {
        return Ok(scanner.pieces);
    };
    if scanner.quoted {
        return Err(CutFault::Unbalanced);
    }
    scanner.pieces.push(Piece::Word(start, text.len()))?;
    Ok(scanner.pieces)
}

/// Whether each parenthesis has its other half.
fn is_balanced(pieces: &[Piece]) -> bool
    ensures { (text : List ℕ) → balanced 0 (lexemes text pieces.now) ≡ result }
{
    let mut unclosed = 0usize;
    for piece in pieces {
        match piece {
            Piece::Word(_, _) => {}
            Piece::Open(_) => unclosed += 1,
            Piece::Close => {
                if unclosed == 0 {
                    return false;
                }
                unclosed -= 1;
            }
        }
    }
    unclosed == 0
}

/// The words and parentheses of a text, in order: at least one, with parentheses and quotes that
/// match. The first of TooLong, Empty and Unbalanced that applies is answered.
pub fn cut(alloc: Global, text: &[u8]) -> Result<Vec<Piece>, CutFault>
    ensures cut { IfOk result (λ v. IsCut 0 (lexemes text.now v.items) text.now) }
    ensures within { IfOk result (λ v. All (IsWithin text.now) v.items) }
    ensures balanced { IfOk result (λ v. IsTrue (balanced 0 (lexemes text.now v.items))) }
    ensures some { IfOk result (λ v. 1 ≤ length v.items) }
    ensures short { IfOk result (λ v. length text.now ≤ 4096) }
    ensures fault { IfErr result (IsUncut text.now) }
{
    if text.len() > MOST_BYTES {
        return Err(CutFault::TooLong);
    }
    let pieces = match scanned(alloc, text) {
        Ok(pieces) => pieces,
        Err(fault) => return Err(fault),
    };
    if pieces.len() == 0 {
        return Err(CutFault::Empty);
    }
    if !is_balanced(&pieces) {
        return Err(CutFault::Unbalanced);
    }
    Ok(pieces)
}
