//! Texts, and lines of a file, that a line of a script writes in short.

use crate::fault::Fault;
use std::alloc::{AllocError, Global};

/// A text with a character in place of each escape.
fn replaced(
    alloc: Global,
    text: &str,
    escape: &str,
    character: &str,
) -> Result<String, AllocError> {
    let Some((front, rest)) = text.split_once(escape) else {
        return String::from_str(alloc, text);
    };
    let mut whole = String::from_str(alloc, front)?;
    for part in rest.split(escape) {
        whole.push_str(character)?;
        whole.push_str(part)?;
    }
    Ok(whole)
}

/// A text in which `\t`, `\r` and `\n` have become characters.
fn unescaped(alloc: Global, text: &str) -> Result<String, AllocError> {
    let text = replaced(alloc, text, "\\t", "\t")?;
    let text = replaced(alloc, text.as_str(), "\\r", "\r")?;
    replaced(alloc, text.as_str(), "\\n", "\n")
}

fn count_of(text: &str) -> Option<u32> {
    text.parse::<u32>().ok()
}

/// What `N:PART}` says behind a brace: how often, the part, and what follows.
fn repetition(text: &str) -> Option<(u32, &str, &str)> {
    let (inner, rest) = text.split_once("}")?;
    let (count, part) = inner.split_once(":")?;
    Some((count_of(count)?, part, rest))
}

/// Writes what follows a brace.
fn push_repeated(whole: &mut String, text: &str) -> Result<(), AllocError> {
    let Some((count, part, rest)) = repetition(text) else {
        whole.push('{')?;
        return whole.push_str(text);
    };
    for _ in 0..count {
        whole.push_str(part)?;
    }
    whole.push_str(rest)
}

/// Writes a text, with each part of it that is repeated.
fn push_text(whole: &mut String, text: &str) -> Result<(), AllocError> {
    for (place, part) in text.split("{").enumerate() {
        if place == 0 {
            whole.push_str(part)?;
        } else {
            push_repeated(whole, part)?;
        }
    }
    Ok(())
}

/// The text that a line of a script stands for.
pub fn whole_text(alloc: Global, text: &str) -> Result<String, Fault> {
    let plain = unescaped(alloc, text)?;
    let mut whole = String::new(alloc);
    push_text(&mut whole, plain.as_str())?;
    Ok(whole)
}

/// Writes a line of a file and its end.
fn push_line(file: &mut String, line: &str) -> Result<(), AllocError> {
    push_text(file, line)?;
    file.push('\n')
}

/// A line with a number in place of each `%`.
fn numbered(alloc: Global, line: &str, number: u32) -> Result<String, AllocError> {
    let mut text = String::new(alloc);
    for (place, part) in line.split("%").enumerate() {
        if place > 0 {
            text.push_str(format!(in alloc; "{number}")?.as_str())?;
        }
        text.push_str(part)?;
    }
    Ok(text)
}

/// How often a line is repeated, and the line.
fn repeated(line: &str) -> Option<(u32, &str)> {
    let (count, rest) = line.strip_prefix("*")?.split_once(" ")?;
    Some((count_of(count)?, rest))
}

/// Writes the lines of a file that a line of a script stands for, each with its end.
pub fn push_lines(alloc: Global, file: &mut String, line: &str) -> Result<(), Fault> {
    let Some((count, text)) = repeated(line) else {
        return Ok(push_line(file, line)?);
    };
    for number in 1..=count {
        let one = numbered(alloc, text, number)?;
        push_line(file, one.as_str())?;
    }
    Ok(())
}
