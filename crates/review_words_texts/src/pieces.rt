//! The fields of a text, each its length in bytes, a colon, its bytes and a comma.
ghost use Rattle.std.specs.Prelude.{◌≡◌, ◌<◌, ◌++◌, ℕ, List, map, length, option_map, IfOk, OnOk, Some, IfSome, string_bytes};
ghost use Rattle.review_names.specs.Numerals.{numeral};
ghost use Rattle.review_words.specs.Texts.{field, signed, text_of};
ghost use Rattle.review_words_texts.specs.{Reading.at, Reading.AreShort, Shown.shown};
ghost use Rattle.review_words_texts.specs.inner.Words.{split_after, taken};

use std::alloc::{AllocError, Global};

/// What a field is written from: a text, or a number in decimal, which may be below 0.
#[derive(Clone, Copy)]
pub enum Piece<'a> {
    Text(&'a str),
    Number(u64),
    Signed(i8),
}

#[tactic(auto, unfolding(review_words::specs::Texts::field), using(review_names::proofs::Numerals::decimal_numeral))]
fn put_text(out: &mut String, text: &str) -> Result<(), AllocError>
    ensures { OnOk result (string_bytes out.new ≡ string_bytes out.old ++ field text.now) }
{
    write!(out, "{}:{},", text.len(), text)
}

// Writes a number in place of what a text had.
#[tactic(auto, using(review_names::proofs::Numerals::decimal_numeral))]
fn set_decimal(digits: &mut String, number: u64) -> Result<(), AllocError>
    ensures { OnOk result (string_bytes digits.new ≡ numeral number) }
{
    digits.clear();
    write!(digits, "{number}")
}

#[tactic(auto, using(crate::proofs::Signed::signed_decimal_pos, crate::proofs::Signed::signed_decimal_neg))]
fn set_signed_decimal(digits: &mut String, number: i8) -> Result<(), AllocError>
    ensures { OnOk result (string_bytes digits.new ≡ signed number) }
{
    digits.clear();
    write!(digits, "{number}")
}

// Adds the field of a piece. Numbers are written in a text that each call has for it.
fn put(out: &mut String, digits: &mut String, piece: &Piece) -> Result<(), AllocError>
    ensures { OnOk result (string_bytes out.new ≡ string_bytes out.old ++ field (shown piece.now)) }
{
    match piece {
        Piece::Text(text) => put_text(out, text),
        Piece::Number(number) => {
            set_decimal(digits, *number)?;
            put_text(out, digits.as_str())
        }
        Piece::Signed(number) => {
            set_signed_decimal(digits, *number)?;
            put_text(out, digits.as_str())
        }
    }
}

// How many digits a number has in decimal.
fn digits_of(number: u64) -> usize {
    match number.checked_ilog10() {
        Some(tens) => (tens as usize).saturating_add(1),
        None => 1,
    }
}

// The bytes of a field before its length, a colon and a comma are put beside them.
fn length_of(piece: &Piece) -> usize {
    match piece {
        Piece::Text(text) => text.len(),
        Piece::Number(number) => digits_of(*number),
        Piece::Signed(number) => {
            let digits = digits_of(u64::from(number.unsigned_abs()));
            if *number < 0 {
                digits.saturating_add(1)
            } else {
                digits
            }
        }
    }
}

// The bytes that the fields of pieces take. What is kept of a request is such a text, so it has no more room than it needs.
fn room_for(pieces: &[Piece]) -> usize {
    let mut room = 0usize;
    for piece in pieces {
        let length = length_of(piece);
        let beside = digits_of(length as u64).saturating_add(2);
        room = room.saturating_add(length).saturating_add(beside);
    }
    room
}

/// The text whose fields the pieces are. An error is want of memory.
#[tactic(auto, unfolding(review_words::specs::Texts::text_of))]
pub fn joined(alloc: Global, pieces: &[Piece]) -> Result<String, AllocError>
    ensures { IfOk result (λ t. string_bytes t ≡ text_of (map shown pieces.now)) }
{
    let mut out = String::with_capacity(alloc, room_for(pieces))?;
    let mut digits = String::new(alloc);
    for piece in pieces {
        put(&mut out, &mut digits, piece)?;
    }
    Ok(out)
}

/// The first so many bytes and what follows the comma after them, if a comma stands there.
fn taken(bytes: &[u8], length: usize) -> Option<(&[u8], &[u8])>
    ensures { option_map (λ x. (x.0.now, x.1.now)) result ≡ taken length bytes.now }
{
    if length >= bytes.len() || bytes[length] != b',' {
        return None;
    }
    Some((&bytes[..length], &bytes[length + 1..]))
}

/// The first field of a text, and the rest, if it begins with a field.
fn first(bytes: &[u8]) -> Option<(&[u8], &[u8])>
    ensures split { option_map (λ x. (x.0.now, x.1.now)) result ≡ split_after 0 bytes.now }
    ensures shorter { IfSome result (λ x. length x.1.now < length bytes.now) }
{
    let mut rest = bytes;
    let mut length = 0usize;
    while let [byte, tail @ ..] = rest {
        if *byte == b':' {
            return taken(tail, length);
        }
        if *byte < b'0' || *byte > b'9' || length >= 1_000_000_000 {
            return None;
        }
        length = length * 10 + (*byte - b'0') as usize;
        rest = tail;
    }
    None
}

/// The fields of a text, if it is one: what is written of fields, each below 10^9 bytes, is cut into those fields. Of other bytes nothing is
/// claimed: whoever reads fields writes what they tell once more, and compares. An error is want of memory.
pub fn cut(alloc: Global, bytes: &[u8]) -> Result<Option<Vec<&[u8]>>, AllocError>
    ensures { IfOk result (λ o. (fs : List (List ℕ)) → AreShort fs → text_of fs ≡ bytes.now → option_map (λ v. map (λ f. f.now) v.items) o ≡ Some fs) }
{
    let mut fields = Vec::new(alloc);
    let mut rest = bytes;
    while !rest.is_empty() {
        match first(rest) {
            Some((field, after)) => {
                fields.push(field)?;
                rest = after;
            }
            None => return Ok(None),
        }
    }
    Ok(Some(fields))
}

/// A field, or nothing where there are not so many.
pub fn field_at<'a>(fields: &[&'a [u8]], index: usize) -> &'a [u8]
    ensures { result.now ≡ at (map (λ f. f.now) fields.now) index }
{
    if index < fields.len() {
        fields[index]
    } else {
        &[]
    }
}
