//! Lists in a text, with a mark between their parts.

use crate::fault::Fault;
use review_words::{AccountNo, Form, Name};
use std::alloc::Global;

/// What one part of a list is read as.
pub trait Part: Drop + Sized {
    fn of_text(alloc: Global, text: &str) -> Result<Self, Fault>;
}

impl Part for AccountNo {
    fn of_text(_alloc: Global, text: &str) -> Result<AccountNo, Fault> {
        Ok(AccountNo::read(text)?)
    }
}

impl<F: Form + Drop> Part for Name<F> {
    fn of_text(alloc: Global, text: &str) -> Result<Name<F>, Fault> {
        Ok(Name::read(alloc, text)?)
    }
}

/// The parts of a list, none where it is `-` or nothing.
pub fn list<T: Part>(alloc: Global, text: &str, mark: &str) -> Result<Vec<T>, Fault> {
    let mut parts = Vec::new(alloc);
    if text.is_empty() || text == "-" {
        return Ok(parts);
    }
    for part in text.split(mark) {
        let part = T::of_text(alloc, part)?;
        parts.push(part)?;
    }
    Ok(parts)
}
