//! Replies, their stored texts and their JSON.

use crate::fault::Fault;
use crate::lists::{Part, list};
use crate::texts::cut;
use review_json::answer_text;
use review_words::{
    Answer, Bad, Bases, ChangeNo, CommitName, JoinedChange, Listed, NotTaken, Reply,
};
use review_words_texts::{read_reply, reply_text};
use std::alloc::Global;

/// The status of a refusal, and what a reply is stored as.
fn stored_text(alloc: Global, reply: &Reply) -> Result<String, Fault> {
    let text = reply_text(alloc, reply)?;
    if text.is_empty() {
        return Ok(String::from_str(alloc, "not stored")?);
    }
    match reply {
        Reply::Refused(refusal) => {
            let status = refusal.status();
            Ok(format!(in alloc; "status {status}, stored as {text}")?)
        }
        _ => Ok(format!(in alloc; "stored as {text}")?),
    }
}

fn told_of(alloc: Global, reply: &Reply) -> Result<String, Fault> {
    let answer = answer_text(alloc, reply)?;
    let kept = stored_text(alloc, reply)?;
    Ok(format!(in alloc; "{answer}\n   {kept}")?)
}

/// What a reply is told as, which goes out of use here alone.
fn told(alloc: Global, reply: Reply) -> Result<String, Fault> {
    told_of(alloc, &reply)
}

fn no_reply(alloc: Global, fault: Bad) -> Result<String, Fault> {
    match fault {
        Bad::Form => Ok(String::from_str(alloc, "no stored reply")?),
        Bad::Memory => Err(Fault::Memory),
    }
}

fn read(alloc: Global, text: &str) -> Result<String, Fault> {
    match read_reply(alloc, text) {
        Ok(reply) => told(alloc, reply),
        Err(fault) => no_reply(alloc, fault),
    }
}

impl Part for JoinedChange {
    fn of_text(alloc: Global, text: &str) -> Result<JoinedChange, Fault> {
        let (change, commit) = cut(text, "@")?;
        let change = ChangeNo::read(change)?;
        let commit = CommitName::read(alloc, commit)?;
        Ok(JoinedChange { change, commit })
    }
}

/// The bases of a branch, and what joined it.
fn branch(alloc: Global, text: &str) -> Result<Answer, Fault> {
    let (recorded, changes) = cut(text, " ")?;
    let bases = Bases::from_vec(list(alloc, recorded, ",")?);
    let joined = Listed::from_vec(list(alloc, changes, ",")?);
    Ok(Answer::Branch { bases, joined })
}

fn branch_told(alloc: Global, text: &str) -> Result<String, Fault> {
    let answer = branch(alloc, text)?;
    told(alloc, Reply::Done(answer))
}

fn cause(text: &str) -> Result<NotTaken, Fault> {
    match text {
        "memory" => Ok(NotTaken::Memory),
        "store" => Ok(NotTaken::Store),
        "damaged" => Ok(NotTaken::Damaged),
        "pattern" => Ok(NotTaken::Pattern),
        "full" => Ok(NotTaken::Full),
        _ => Err(Fault::Form),
    }
}

fn not_taken(alloc: Global, text: &str) -> Result<String, Fault> {
    let cause = cause(text)?;
    told(alloc, Reply::NotTaken(cause))
}

/// What a reply is told as, if a word asks that.
pub fn reply(alloc: Global, word: &str, text: &str) -> Result<Option<String>, Fault> {
    let reply = match word {
        "reply" => read(alloc, text),
        "branch-with" => branch_told(alloc, text),
        "not-taken" => not_taken(alloc, text),
        "identity-reused" => told(alloc, Reply::IdentityReused),
        "epoch-closed" => told(alloc, Reply::EpochClosed),
        _ => return Ok(None),
    };
    Ok(Some(reply?))
}
