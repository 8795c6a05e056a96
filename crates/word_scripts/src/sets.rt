//! Sets of accounts and of paths.

use crate::fault::{Fault, named};
use crate::lists::{Part, list};
use crate::texts::{cut, small_number};
use review_words::{AccountNo, Given, LabelName, Labels, Members, Paths};
use std::alloc::{AllocError, Global};

fn members_text(alloc: Global, members: &Members) -> Result<String, AllocError> {
    let count = members.len();
    if count > 20 {
        let least = members.as_slice().first().map_or(0, |first| first.get());
        let greatest = members.as_slice().last().map_or(0, |last| last.get());
        return format!(in alloc; "{count}: from {least} to {greatest}");
    }
    let mut list = format!(in alloc; "{count}:")?;
    for member in members.as_slice() {
        let number = member.get();
        list.push_str(format!(in alloc; " {number}")?.as_str())?;
    }
    Ok(list)
}

fn paths_text(alloc: Global, paths: &Paths) -> Result<String, AllocError> {
    let count = paths.len();
    let mut list = format!(in alloc; "{count}:")?;
    for path in paths.as_slice().iter().take(20) {
        list.push_str(" ")?;
        list.push_str(path.as_str())?;
    }
    Ok(list)
}

fn members(alloc: Global, text: &str) -> Result<String, Fault> {
    let accounts = list(alloc, text, ",")?;
    match named(Members::from_vec(alloc, accounts))? {
        Some(members) => Ok(members_text(alloc, &members)?),
        None => Ok(String::from_str(alloc, "too many")?),
    }
}

impl Part for Given {
    fn of_text(alloc: Global, text: &str) -> Result<Given, Fault> {
        let (label, value) = cut(text, "=")?;
        let value = small_number(value)?;
        let label = LabelName::read(alloc, label)?;
        Ok(Given { label, value })
    }
}

/// The values that a list gives on labels.
pub fn labels(alloc: Global, text: &str) -> Result<Labels, Fault> {
    let given = list(alloc, text, ",")?;
    Ok(Labels::from_vec(alloc, given)?)
}

fn labels_text(alloc: Global, text: &str) -> Result<String, Fault> {
    let labels = labels(alloc, text)?;
    let mut list = String::new(alloc);
    for given in labels.as_slice() {
        let label = given.label.as_str();
        let value = given.value;
        list.push_str(format!(in alloc; "{label} {value};")?.as_str())?;
    }
    Ok(list)
}

fn paths(alloc: Global, text: &str) -> Result<String, Fault> {
    let given = list(alloc, text, ",")?;
    match named(Paths::from_vec(alloc, given))? {
        Some(paths) => Ok(paths_text(alloc, &paths)?),
        None => Ok(String::from_str(alloc, "too many")?),
    }
}

fn is_member(alloc: Global, text: &str) -> Result<String, Fault> {
    let (number, numbers) = cut(text, " ")?;
    let account = AccountNo::read(number)?;
    let accounts = list(alloc, numbers, ",")?;
    let members = Members::from_vec(alloc, accounts)?;
    let answer = if members.has(account) { "yes" } else { "no" };
    Ok(String::from_str(alloc, answer)?)
}

/// What a list is as a set, if a word asks that.
pub fn set(alloc: Global, word: &str, text: &str) -> Result<Option<String>, Fault> {
    let answer = match word {
        "members" => members(alloc, text),
        "member" => is_member(alloc, text),
        "paths" => paths(alloc, text),
        "labels" => labels_text(alloc, text),
        _ => return Ok(None),
    };
    Ok(Some(answer?))
}
