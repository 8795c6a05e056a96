//! From words to tokens.
ghost use Rattle.std.specs.List.{All};
ghost use Rattle.std.specs.Prelude.{◌≡◌, ◌≤◌, ◌++◌, ℕ, List, Some, IfOk, IfErr, OnOk, length};
ghost use Rattle.review_expr_terms.specs.{Grammar.Tok, Scanned.lexemes, Scanned.IsWithin, Views.tok, Views.toks};
ghost use Rattle.review_expr_terms.specs.Words.{Good, IsWordFault};
ghost use Rattle.review_expr.specs.Expressions.{IsLaidOut, IsParseFault};
ghost use Rattle.review_expr.specs.Tokens.{meaning, opens_at, tokens, unsigned, word_tokens};
ghost use Rattle.review_expr.specs.inner.Words.{placed};

use crate::fault::ParseFault;
use crate::spelled::Spelled;
use review_expr_terms::{Piece, Token, WordFault};
use review_words::{ExprCode, ExprFault};
use std::alloc::Global;
use std::collections::VecDeque;

/// What a word without a minus is: an operator or a term.
fn read_token<T: Spelled>(alloc: Global, word: &str) -> Result<Token<T>, WordFault>
    ensures token { IfOk result (λ t. meaning T.reading word.now ≡ Good (tok t)) }
    ensures fault { IfErr result (IsWordFault (meaning T.reading word.now) (T.is_deep word.now) (T.is_pattern word.now)) }
{
    if word == "AND" {
        return Ok(Token::And);
    }
    if word == "OR" {
        return Ok(Token::Or);
    }
    if word == "NOT" {
        return Ok(Token::Not);
    }
    match T::read(alloc, word) {
        Ok(term) => Ok(Token::Word(Box::new(alloc, term)?)),
        Err(fault) => Err(fault),
    }
}

/// Puts what a word is behind other tokens: an operator or a term, perhaps behind a minus, or a
/// minus alone where a parenthesis opens directly behind it.
fn push_word<T: Spelled>(
    alloc: Global,
    tokens: &mut VecDeque<Token<T>>,
    word: &str,
    opens: bool,
) -> Result<(), WordFault>
    ensures tokens { OnOk result ((ts : List (Tok T)) × (word_tokens T.reading opens word.now ≡ Good ts) × (toks tokens.new.items ≡ toks tokens.old.items ++ ts)) }
    ensures fault { IfErr result (IsWordFault (word_tokens T.reading opens word.now) (T.is_deep (unsigned word.now)) (T.is_pattern (unsigned word.now))) }
{
    let Some(bare) = word.strip_prefix('-') else {
        let token = match read_token(alloc, word) {
            Ok(token) => token,
            Err(fault) => return Err(fault),
        };
        tokens.push_back(token)?;
        return Ok(());
    };
    if bare.is_empty() {
        if !opens {
            return Err(WordFault::BadTerm);
        }
        tokens.push_back(Token::Minus)?;
        return Ok(());
    }
    if bare.starts_with('-') {
        return Err(WordFault::BadTerm);
    }
    let token = match read_token(alloc, bare) {
        Ok(token) => token,
        Err(fault) => return Err(fault),
    };
    tokens.push_back(Token::Minus)?;
    tokens.push_back(token)?;
    Ok(())
}

/// Whether the first piece is an opening parenthesis at a place.
fn opens_at(pieces: &[Piece], place: usize) -> bool
    ensures { (text : List ℕ) → opens_at place (lexemes text pieces.now) ≡ result }
{
    match pieces {
        [Piece::Open(at), ..] => *at == place,
        _ => false,
    }
}

/// A word's fault, with the word's place.
fn placed(place: usize, fault: WordFault) -> ParseFault
    ensures { result ≡ placed place fault }
{
    let code = match fault {
        WordFault::BadTerm => ExprCode::BadTerm,
        WordFault::BadValue => ExprCode::BadValue,
        WordFault::Zero => ExprCode::Zero,
        WordFault::Engine => return ParseFault::Pattern,
        WordFault::Memory => return ParseFault::Memory,
    };
    ParseFault::Text(ExprFault { place, code })
}

/// The tokens of a text's words and parentheses, or the fault of the first word that has one.
pub(crate) fn tokens_of<T: Spelled>(
    alloc: Global,
    text: &str,
    pieces: &[Piece],
) -> Result<VecDeque<Token<T>>, ParseFault>
    requires laid_out { IsLaidOut (lexemes text.now pieces.now) text.now }
    requires within { All (IsWithin text.now) pieces.now }
    ensures tokens { IfOk result (λ q. tokens T.reading (lexemes text.now pieces.now) ≡ Some (toks q.items)) }
    ensures fault { IfErr result (IsParseFault T.reading T.is_deep T.is_pattern text.now) }
{
    let mut tokens = VecDeque::new(alloc);
    for (index, piece) in pieces.iter().enumerate() {
        match *piece {
            Piece::Open(_) => tokens.push_back(Token::Open)?,
            Piece::Close => tokens.push_back(Token::Close)?,
            Piece::Word(start, end) => {
                let opens = opens_at(&pieces[index + 1..], start + 1);
                let word = &text[start..end];
                if let Err(fault) = push_word(alloc, &mut tokens, word, opens) {
                    return Err(placed(start, fault));
                }
            }
        }
    }
    Ok(tokens)
}
