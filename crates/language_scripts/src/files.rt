//! Scripts on project files: what texts are, and what files say.
//!
//! When a script begins there is no file and there are no groups. A line is
//!
//! - `? QUESTION`, about the file above it;
//! - any other line: one of a file. The first one behind a question begins a new file. The last line of a file has no end.
//!
//! In a line of a file `{N:PART}` is PART N times; any other brace is itself. A line `*N LINE` is N lines, in which each `%`
//! is 1 in the first, 2 in the second. So `{0:}` is the line of an empty file.
//!
//! A question is
//!
//! - `read`: what the text is. The answer is `a file`, or the fault by its name, of an expression with the name of that fault and its
//!   place. `PATTERN` says that the engine refused a pattern;
//! - `show`: the labels, with their values, grants and copy conditions, and the requirements of a file;
//! - `covers`: whether the file covers the one above it;
//! - `may ACCOUNT RIGHT`, `range ACCOUNT LABEL`: whether it gives an account a right, and which values the account may vote.
//!   `group GROUP ACCOUNT ..`, which has no answer, says before who is in a group;
//! - `satisfied ACCOUNT:VALUE ..`: whether the first requirement's `submittableIf` holds for account 2's change, whose current patch set
//!   account 3 sent, with these votes on the first label;
//! - `fronts`: what the text is up to the end of each of its lines, and within the line, where each front has to be the same.

use crate::answers::yes_or_no;
use crate::contents::contents_of;
use crate::facts::group;
use crate::fault::Fault;
use crate::file_readings::{fronts, reading};
use crate::satisfied::is_satisfied;
use crate::texts::push_lines;
use review_file::{ProjectFile, Right, covers, may, range_of, read_file};
use review_words::{AccountNo, Groups, LabelName};
use std::alloc::Global;
use std::collections::BTreeMap;
use std::mem;

/// What the lines of a script have said so far.
#[derive(Drop)]
pub struct FileScript {
    /// The lines of the file above the last one, each with its end.
    before: String,
    /// The lines of the last file, each with its end.
    lines: String,
    /// The file was asked about, so the next line begins another one.
    is_whole: bool,
    groups: Groups,
}

/// The text of lines, of which the last has no end.
fn text_of(lines: &str) -> &str {
    lines.strip_suffix("\n").unwrap_or(lines)
}

fn right(word: &str) -> Result<Right, Fault> {
    match word {
        "create" => Ok(Right::Create),
        "upload" => Ok(Right::Upload),
        "submit" => Ok(Right::Submit),
        "abandon" => Ok(Right::Abandon),
        _ => Err(Fault::Form),
    }
}

/// The account and the label that words name.
fn voter(alloc: Global, words: &str) -> Result<(AccountNo, LabelName), Fault> {
    let (number, name) = words.split_once(" ").ok_or(Fault::Form)?;
    let account = AccountNo::read(number)?;
    let label = LabelName::read(alloc, name)?;
    Ok((account, label))
}

impl FileScript {
    /// One that has said nothing.
    pub fn new(alloc: Global) -> FileScript {
        FileScript {
            before: String::new(alloc),
            lines: String::new(alloc),
            is_whole: false,
            groups: Groups(BTreeMap::new(alloc)),
        }
    }

    /// Takes a line: its answer, if it asks something.
    pub fn take(&mut self, alloc: Global, line: &str) -> Result<Option<String>, Fault> {
        if let Some(question) = line.strip_prefix("? ") {
            return self.ask(alloc, question);
        }
        self.add(alloc, line)?;
        Ok(None)
    }

    /// Takes a line of a file.
    fn add(&mut self, alloc: Global, line: &str) -> Result<(), Fault> {
        if self.is_whole {
            self.before = mem::replace(&mut self.lines, String::new(alloc));
            self.is_whole = false;
        }
        push_lines(alloc, &mut self.lines, line)
    }

    fn put_group(&mut self, alloc: Global, words: &str) -> Result<(), Fault> {
        let (name, members) = group(alloc, words)?;
        self.groups.0.insert(name, members)?;
        Ok(())
    }

    fn has_right(&self, file: &ProjectFile, words: &str) -> Result<bool, Fault> {
        let (number, word) = words.split_once(" ").ok_or(Fault::Form)?;
        let account = AccountNo::read(number)?;
        let right = right(word)?;
        Ok(may(file, right, account, &self.groups))
    }

    fn range(&self, alloc: Global, file: &ProjectFile, words: &str) -> Result<String, Fault> {
        let (account, label) = voter(alloc, words)?;
        let (least, greatest) = range_of(file, &label, account, &self.groups);
        Ok(format!(in alloc; "from {least} to {greatest}")?)
    }

    /// Whether a file covers the one before.
    fn is_covered(&self, alloc: Global, file: &ProjectFile) -> Result<bool, Fault> {
        match read_file(alloc, text_of(self.before.as_str())) {
            Ok(old) => Ok(covers(&old, file)),
            Err(_) => Err(Fault::NoFile),
        }
    }

    /// The answer to a question about a file.
    fn about(
        &self,
        alloc: Global,
        file: &ProjectFile,
        word: &str,
        words: &str,
    ) -> Result<String, Fault> {
        match word {
            "show" => contents_of(alloc, file),
            "may" => yes_or_no(alloc, self.has_right(file, words)?),
            "range" => self.range(alloc, file, words),
            "satisfied" => yes_or_no(alloc, is_satisfied(alloc, file, words)?),
            "covers" => yes_or_no(alloc, self.is_covered(alloc, file)?),
            _ => Err(Fault::Form),
        }
    }

    /// The answer to a question about the last file.
    fn about_last(&self, alloc: Global, word: &str, words: &str) -> Result<String, Fault> {
        match read_file(alloc, text_of(self.lines.as_str())) {
            Ok(file) => self.about(alloc, &file, word, words),
            Err(_) => Err(Fault::NoFile),
        }
    }

    /// Takes a question: its answer, if it asks something.
    fn ask(&mut self, alloc: Global, question: &str) -> Result<Option<String>, Fault> {
        let (word, words) = question.split_once(" ").unwrap_or((question, ""));
        if word == "group" {
            self.put_group(alloc, words)?;
            return Ok(None);
        }
        self.is_whole = true;
        let text = text_of(self.lines.as_str());
        let answer = match word {
            "read" => reading(alloc, text),
            "fronts" => fronts(alloc, text),
            _ => self.about_last(alloc, word, words),
        };
        Ok(Some(answer?))
    }
}
