//! Names and numbers of fixed forms.

use crate::fault::{Fault, named};
use crate::texts::on_a_line;
use review_words::{
    AccountName, AccountNo, Bad, BranchName, ChangeKind, ChangeNo, CommentNo, CommitName, Epoch,
    FileText, Form, GroupName, LabelName, Message, Name, PatchNo, Path, Place, ProjectName, Reason,
    RequestId, Subject, admin_name, administrators, patch_set_level,
};
use std::alloc::Global;
use std::cmp::Ordering;

/// The text of a copy of a name that was read.
fn name_text<F: Form + Drop>(alloc: Global, read: Result<Name<F>, Bad>) -> Result<String, Fault> {
    match named(read)? {
        Some(name) => on_a_line(alloc, name.copy()?.as_str()),
        None => Ok(String::from_str(alloc, "no form")?),
    }
}

fn kind_text(alloc: Global, text: &str) -> Result<String, Fault> {
    let name = ChangeKind::from_name(text).map_or("no form", |kind| kind.name());
    Ok(String::from_str(alloc, name)?)
}

/// What a text is as a name or a file, if a word asks that.
pub fn name(alloc: Global, word: &str, text: &str) -> Result<Option<String>, Fault> {
    let answer = match word {
        "file" => file_text(alloc, text),
        "account-name" => name_text(alloc, AccountName::read(alloc, text)),
        "request-id" => name_text(alloc, RequestId::read(alloc, text)),
        "group" => name_text(alloc, GroupName::read(alloc, text)),
        "project" => name_text(alloc, ProjectName::read(alloc, text)),
        "branch" => name_text(alloc, BranchName::read(alloc, text)),
        "commit" => name_text(alloc, CommitName::read(alloc, text)),
        "label" => name_text(alloc, LabelName::read(alloc, text)),
        "path" => name_text(alloc, Path::read(alloc, text)),
        "place" => name_text(alloc, Place::read(alloc, text)),
        "subject" => name_text(alloc, Subject::read(alloc, text)),
        "reason" => name_text(alloc, Reason::read(alloc, text)),
        "message" => name_text(alloc, Message::read(alloc, text)),
        "kind" => kind_text(alloc, text),
        _ => return Ok(None),
    };
    Ok(Some(answer?))
}

fn number_text(alloc: Global, number: Option<u32>, otherwise: &str) -> Result<String, Fault> {
    match number {
        Some(number) => Ok(format!(in alloc; "{number}")?),
        None => Ok(String::from_str(alloc, otherwise)?),
    }
}

/// What a text is as a number, if a word asks that.
pub fn number(alloc: Global, word: &str, text: &str) -> Result<Option<String>, Fault> {
    let read = match word {
        "account-number" => named(AccountNo::read(text))?.map(AccountNo::get),
        "change-number" => named(ChangeNo::read(text))?.map(ChangeNo::get),
        "patch-number" => named(PatchNo::read(text))?.map(PatchNo::get),
        "comment-number" => named(CommentNo::read(text))?.map(CommentNo::get),
        _ => return Ok(None),
    };
    Ok(Some(number_text(alloc, read, "no form")?))
}

/// What a whole number counts, if a word asks that.
pub fn counted(alloc: Global, word: &str, text: &str) -> Result<Option<String>, Fault> {
    let count = text.parse::<u64>().unwrap_or(0);
    let number = match word {
        "account-of" => AccountNo::from_number(count).map(AccountNo::get),
        "change-of" => ChangeNo::from_number(count).map(ChangeNo::get),
        "patch-of" => PatchNo::from_number(count).map(PatchNo::get),
        "comment-of" => CommentNo::from_number(count).map(CommentNo::get),
        "epoch-of" => Epoch::from_number(count).map(Epoch::get),
        "account-after" => {
            let last = u32::try_from(count).map_err(|_| Fault::Form)?;
            AccountNo::after(last).map(AccountNo::get)
        }
        _ => return Ok(None),
    };
    Ok(Some(number_text(alloc, number, "none")?))
}

/// What has a name or a number of its own, if a word asks for it.
pub fn known(alloc: Global, word: &str) -> Result<Option<String>, Fault> {
    let text = match word {
        "first-account" => number_text(alloc, Some(AccountNo::first().get()), ""),
        "last-account" => number_text(alloc, Some(AccountNo::last().get()), ""),
        "name-of-account-1" => on_a_line(alloc, admin_name(alloc)?.as_str()),
        "group-of-administrators" => on_a_line(alloc, administrators(alloc)?.as_str()),
        "place-of-patch-sets" => on_a_line(alloc, patch_set_level(alloc)?.as_str()),
        _ => return Ok(None),
    };
    Ok(Some(text?))
}

/// Where a name stands in the order of names, beside another.
fn place<F: Form + Drop>(left: &Name<F>, right: &Name<F>) -> &'static str {
    if left == right {
        return "the same";
    }
    match left.cmp(right) {
        Ordering::Less => "before",
        Ordering::Equal => "beside",
        Ordering::Greater => "behind",
    }
}

/// Where a name that was read stands beside another.
fn order<F: Form + Drop>(
    left: Result<Name<F>, Bad>,
    right: Result<Name<F>, Bad>,
) -> Result<&'static str, Fault> {
    let left = left?;
    let right = right?;
    Ok(place(&left, &right))
}

/// How two names stand in their order, if a word asks that.
pub fn compared(alloc: Global, word: &str, text: &str) -> Result<Option<String>, Fault> {
    let (left, right) = text.split_once(" ").unwrap_or((text, ""));
    let order = match word {
        "label-order" => order(LabelName::read(alloc, left), LabelName::read(alloc, right)),
        "account-order" => order(
            AccountName::read(alloc, left),
            AccountName::read(alloc, right),
        ),
        _ => return Ok(None),
    };
    Ok(Some(String::from_str(alloc, order?)?))
}

/// The text of a copy of a file.
fn file_text(alloc: Global, text: &str) -> Result<String, Fault> {
    let file = FileText::from_str(alloc, text)?;
    on_a_line(alloc, file.copy()?.as_str())
}
