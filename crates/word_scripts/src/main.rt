//! Scripts on the words of the desk: names and numbers, lines that ask, bodies, replies. A transcript that a person reads from top to bottom.
//!
//! Standard input has lines, standard output the same lines, each with its answer beneath it, behind `=> `. A line is
//!
//! - `### TEXT`, a heading, `== TEXT`, the name of what follows, `# TEXT`, a remark, or nothing;
//! - a name or a number: `account-name TEXT`, `request-id TEXT`, `group TEXT`, `project TEXT`, `branch TEXT`, `commit TEXT`, `label TEXT`,
//!   `path TEXT`, `place TEXT`, `subject TEXT`, `reason TEXT`, `message TEXT`, `account-number TEXT`, `change-number TEXT`,
//!   `patch-number TEXT`, `comment-number TEXT`. The answer is the text of a copy of what was read, or `no form`; `kind TEXT` likewise;
//! - `account-of N`, `change-of N`, `patch-of N`, `comment-of N`, `epoch-of N`, `account-after N`: the number of that count, or `none`;
//! - `first-account`, `last-account`, `name-of-account-1`, `group-of-administrators`, `place-of-patch-sets`;
//! - `label-order NAME NAME`, `account-order NAME NAME`: how the first name stands to the second;
//! - `members N,N,..`, `paths PATH,PATH,..`: the set of a list: how many, and the first 20 paths, or the accounts, if there are
//!   more than 20 the least and the greatest; or `too many`. `member N N,N,..`: whether an account is in a set;
//! - `labels LABEL=VALUE,..`: the values that a review gives;
//! - `file TEXT`: the text of a copy of a file;
//! - `line LINE`: who asks for what by a line of JSON, in which epoch but for the first, under which id, and the content text of a command;
//!   or `no delivery`. In `line-with-byte HEX LINE` each star of the line is the byte of two digits;
//! - `route LINE`: whether the route of a line of JSON is a question, or a command whose body may be empty or not. `body LINE BODY`, where the
//!   line has no space: the content text of the command to which the bytes of a body complete its route, or `no command`.
//!   `request-id-with-byte HEX TEXT`: the id that these bytes are, or `no form`;
//! - `reply TEXT`: the stored reply of a text: its JSON, the status of a refusal, and its text again; or `no stored reply`. Replies that
//!   have no text are `branch-with COMMIT,.. CHANGE@COMMIT,..`, a branch's bases and what joined it, where an empty list is `-`, `not-taken CAUSE`,
//!   `identity-reused` and `epoch-closed`.
//!
//! In a line `{N:PART}` is PART N times, `{A..B}` the numbers from A to B with commas between, `{"A..B"}` the same with each in
//! quotes, and `{U+HEX}` a character; any other brace is itself. In an answer `\n` is a line feed, and a text of more than 300 bytes
//! is told by its length.
#![tactic(auto)]

mod bodies;
mod fault;
mod lines;
mod lists;
mod names;
mod replies;
mod sets;
mod texts;

use fault::Fault;
use std::alloc::Global;
use std::io::{BufRead, BufReader};
use std::process::ExitCode;
use texts::whole_text;

/// What a word asks of a text.
fn answer_to(alloc: Global, word: &str, text: &str) -> Result<String, Fault> {
    if let Some(answer) = names::name(alloc, word, text)? {
        return Ok(answer);
    }
    if let Some(answer) = names::number(alloc, word, text)? {
        return Ok(answer);
    }
    if let Some(answer) = names::compared(alloc, word, text)? {
        return Ok(answer);
    }
    if let Some(answer) = sets::set(alloc, word, text)? {
        return Ok(answer);
    }
    if let Some(answer) = names::counted(alloc, word, text)? {
        return Ok(answer);
    }
    if let Some(answer) = names::known(alloc, word)? {
        return Ok(answer);
    }
    if let Some(answer) = lines::line(alloc, word, text)? {
        return Ok(answer);
    }
    if let Some(answer) = bodies::addressed(alloc, word, text)? {
        return Ok(answer);
    }
    replies::reply(alloc, word, text)?.ok_or(Fault::Form)
}

/// What a line is answered.
fn answer(alloc: Global, line: &str) -> Result<String, Fault> {
    let (word, rest) = line.split_once(" ").unwrap_or((line, ""));
    let text = whole_text(alloc, rest)?;
    answer_to(alloc, word, text.as_str())
}

/// Prints a line, and its answer.
fn step(rt: &HostRuntime, line: &str) -> Result<(), Fault> {
    println!(rt; "{line}").map_err(Fault::of_output)?;
    if line.is_empty() || line.starts_with("#") || line.starts_with("== ") {
        return Ok(());
    }
    let answer = answer(rt.alloc(), line)?;
    println!(rt; "=> {answer}").map_err(Fault::of_output)
}

fn transcribe(rt: &HostRuntime) -> Result<(), Fault> {
    let reader = BufReader::new(rt.alloc(), rt.reader()).map_err(Fault::of_input)?;
    for line in reader.lines(rt.alloc()) {
        let line = line.map_err(Fault::of_input)?;
        step(rt, line.as_str())?;
    }
    Ok(())
}

fn main(rt: HostRuntime) -> ExitCode {
    match transcribe(&rt) {
        Ok(()) => ExitCode::SUCCESS,
        Err(fault) => {
            let _ = eprintln!(rt; "word_scripts: {fault}");
            ExitCode::FAILURE
        }
    }
}
