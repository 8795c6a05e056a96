//! Texts that a line writes in short, their parts, and texts that are shown on a line.

use crate::fault::Fault;
use std::alloc::{AllocError, Global};

/// What stands before the next separator, and the rest.
pub fn cut<'a>(text: &'a str, separator: &str) -> Result<(&'a str, &'a str), Fault> {
    text.split_once(separator).ok_or(Fault::Form)
}

/// A value of a label.
pub fn small_number(text: &str) -> Result<i8, Fault> {
    text.parse::<i8>().map_err(|_| Fault::Form)
}

/// The character of `U+HEX`.
fn character(inner: &str) -> Option<char> {
    let digits = inner.strip_prefix("U+")?;
    char::from_u32(u32::from_str_radix(digits, 16).ok()?)
}

/// How often a part is repeated, of `N:PART`, and the part.
fn repetition(inner: &str) -> Option<(u32, &str)> {
    let (count, part) = inner.split_once(":")?;
    Some((count.parse::<u32>().ok()?, part))
}

/// The ends of `A..B`.
fn range(inner: &str) -> Option<(u32, u32)> {
    let (first, last) = inner.split_once("..")?;
    Some((first.parse::<u32>().ok()?, last.parse::<u32>().ok()?))
}

/// The ends of `"A..B"`.
fn quoted_range(inner: &str) -> Option<(u32, u32)> {
    range(inner.strip_prefix("\"")?.strip_suffix("\"")?)
}

/// Writes a number between two marks, behind a comma.
fn push_number(
    alloc: Global,
    whole: &mut String,
    number: u32,
    mark: &str,
) -> Result<(), AllocError> {
    let text = format!(in alloc; ",{mark}{number}{mark}")?;
    whole.push_str(text.as_str())
}

/// Writes the numbers from the first to the last, rising or falling, each between two marks, with commas between.
fn push_numbers(
    alloc: Global,
    whole: &mut String,
    ends: (u32, u32),
    mark: &str,
) -> Result<(), AllocError> {
    let (first, last) = ends;
    whole.push_str(format!(in alloc; "{mark}{first}{mark}")?.as_str())?;
    for number in first.saturating_add(1)..last.saturating_add(1) {
        push_number(alloc, whole, number, mark)?;
    }
    for step in 1..first.saturating_sub(last).saturating_add(1) {
        push_number(alloc, whole, first.saturating_sub(step), mark)?;
    }
    Ok(())
}

/// Writes what stands between two braces, or what it is short for.
fn push_inner(alloc: Global, whole: &mut String, inner: &str) -> Result<(), AllocError> {
    if let Some(character) = character(inner) {
        return whole.push(character);
    }
    if let Some((count, part)) = repetition(inner) {
        for _ in 0..count {
            whole.push_str(part)?;
        }
        return Ok(());
    }
    if let Some(ends) = range(inner) {
        return push_numbers(alloc, whole, ends, "");
    }
    if let Some(ends) = quoted_range(inner) {
        return push_numbers(alloc, whole, ends, "\"");
    }
    whole.push('{')?;
    whole.push_str(inner)?;
    whole.push('}')
}

/// Writes what follows a brace.
fn push_braced(alloc: Global, whole: &mut String, text: &str) -> Result<(), AllocError> {
    let Some((inner, rest)) = text.split_once("}") else {
        whole.push('{')?;
        return whole.push_str(text);
    };
    push_inner(alloc, whole, inner)?;
    whole.push_str(rest)
}

/// The text that one in short stands for.
pub fn whole_text(alloc: Global, text: &str) -> Result<String, Fault> {
    let mut whole = String::new(alloc);
    for (place, part) in text.split("{").enumerate() {
        if place == 0 {
            whole.push_str(part)?;
        } else {
            push_braced(alloc, &mut whole, part)?;
        }
    }
    Ok(whole)
}

/// A text with another in place of each mark.
fn replaced(alloc: Global, text: &str, mark: &str, other: &str) -> Result<String, AllocError> {
    let mut whole = String::new(alloc);
    for (place, part) in text.split(mark).enumerate() {
        if place > 0 {
            whole.push_str(other)?;
        }
        whole.push_str(part)?;
    }
    Ok(whole)
}

/// A text as it is shown: line feeds as `\n`, or its length where it has more than 300 bytes.
pub fn on_a_line(alloc: Global, text: &str) -> Result<String, Fault> {
    let length = text.len();
    if length > 300 {
        return Ok(format!(in alloc; "{length} bytes")?);
    }
    Ok(replaced(alloc, text, "\n", "\\n")?)
}

/// The bytes of a text, with a byte in place of each star.
fn starred(alloc: Global, text: &str, star: u8) -> Result<Vec<u8>, AllocError> {
    let mut bytes = Vec::new(alloc);
    for byte in text.as_bytes() {
        let byte = if *byte == b'*' { star } else { *byte };
        bytes.push(byte)?;
    }
    Ok(bytes)
}

fn hexadecimal(digits: &str) -> Result<u8, Fault> {
    u8::from_str_radix(digits, 16).map_err(|_| Fault::Form)
}

/// The bytes of a text, behind two hexadecimal digits, with that byte in place of each star.
pub fn with_byte(alloc: Global, text: &str) -> Result<Vec<u8>, Fault> {
    let (digits, line) = cut(text, " ")?;
    let byte = hexadecimal(digits)?;
    Ok(starred(alloc, line, byte)?)
}
