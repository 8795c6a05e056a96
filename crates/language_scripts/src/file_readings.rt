//! What texts are: files, or why they are none.

use crate::fault::Fault;
use review_file::{FileFault, ReadFault, read_file};
use std::alloc::Global;

fn named(alloc: Global, name: &str) -> Result<String, Fault> {
    Ok(String::from_str(alloc, name)?)
}

/// Why a text is no file, by the product's names.
fn refused(alloc: Global, fault: ReadFault) -> Result<String, Fault> {
    match fault {
        ReadFault::File(FileFault::Expr(expr)) => {
            let name = expr.code.name();
            let place = expr.place;
            Ok(format!(in alloc; "EXPR {name} at {place}")?)
        }
        ReadFault::File(fault) => named(alloc, fault.name()),
        ReadFault::Pattern => named(alloc, "PATTERN"),
        ReadFault::Memory => Err(Fault::Memory),
    }
}

/// What a text is.
pub fn reading(alloc: Global, text: &str) -> Result<String, Fault> {
    match read_file(alloc, text) {
        Ok(_) => named(alloc, "a file"),
        Err(fault) => refused(alloc, fault),
    }
}

/// Takes what a front is: both, where that is another thing than what was said.
fn differing(alloc: Global, said: &mut String, front: &str) -> Result<Option<String>, Fault> {
    let here = reading(alloc, front)?;
    if said.is_empty() || here.as_str() == said.as_str() {
        *said = here;
        return Ok(None);
    }
    let before = said.as_str();
    Ok(Some(format!(in alloc; "{before} and {here}")?))
}

/// What a text is with each front of a line behind it, but the whole line, if that is always the same.
fn within(alloc: Global, text: &str, line: &str) -> Result<String, Fault> {
    let mut front = String::from_str(alloc, text)?;
    let mut said = String::new(alloc);
    for character in line.chars() {
        if front.len() > text.len() {
            if let Some(both) = differing(alloc, &mut said, front.as_str())? {
                return Ok(both);
            }
        }
        front.push(character)?;
    }
    Ok(said)
}

/// What a text is, if that is the same with a line feed behind it.
fn with_and_without_end(alloc: Global, text: &mut String) -> Result<String, Fault> {
    let without = reading(alloc, text.as_str())?;
    text.push('\n')?;
    let with = reading(alloc, text.as_str())?;
    if with.as_str() != without.as_str() {
        return Ok(format!(in alloc; "{without} and {with}")?);
    }
    Ok(without)
}

/// Puts a line behind a front, and tells of it.
fn push_line(
    alloc: Global,
    answer: &mut String,
    front: &mut String,
    line: &str,
) -> Result<(), Fault> {
    let inside = within(alloc, front.as_str(), line)?;
    front.push_str(line)?;
    let whole = with_and_without_end(alloc, front)?;
    let told = format!(in alloc; "\n   {line}: {whole}; within: {inside}")?;
    Ok(answer.push_str(told.as_str())?)
}

/// What a text is up to the end of each line, with and without its line feed, and up to the places within the line.
pub fn fronts(alloc: Global, text: &str) -> Result<String, Fault> {
    let nothing = reading(alloc, "")?;
    let mut answer = format!(in alloc; "nothing: {nothing}")?;
    let mut front = String::new(alloc);
    for line in text.split("\n") {
        push_line(alloc, &mut answer, &mut front, line)?;
    }
    Ok(answer)
}
