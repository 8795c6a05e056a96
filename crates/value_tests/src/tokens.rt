//! Tokens that no text has: a text with parentheses that don't match is refused before it has tokens, as is one without any, and a
//! second minus makes its word a bad one.

use crate::fault::Fault;
use review_expr_terms::{ShapeFault, Token, parse};
use std::alloc::Global;
use std::collections::VecDeque;
use std::test::Fail;

/// The token that a character writes.
fn token(alloc: Global, byte: u8) -> Result<Token<u8>, Fault> {
    match byte {
        b'(' => Ok(Token::Open),
        b')' => Ok(Token::Close),
        b'-' => Ok(Token::Minus),
        digit => Ok(Token::Word(Box::new(alloc, digit)?)),
    }
}

/// The fault of tokens that are written one character each, after so many NOT.
fn fault_of(alloc: Global, negations: usize, text: &str) -> Result<Option<ShapeFault>, Fault> {
    let mut tokens = VecDeque::new(alloc);
    for _ in 0..negations {
        tokens.push_back(Token::Not)?;
    }
    for byte in text.as_bytes() {
        let token = token(alloc, *byte)?;
        tokens.push_back(token)?;
    }
    Ok(parse(alloc, tokens).err())
}

#[test]
fn tokens_that_no_text_has(rt: HostRuntime) -> Result<(), Fail> {
    for text in ["", "--1", "1)", "(1"] {
        let fault = fault_of(rt.alloc(), 0, text)?;
        assert!(rt; fault == Some(ShapeFault::BadTerm), "of {text}");
    }
    let fault = fault_of(rt.alloc(), 2047, "1")?;
    assert!(rt; fault == Some(ShapeFault::TooDeep));
    Ok(())
}
