//! Lines that spell deliveries.

use crate::fault::Fault;
use crate::texts::{on_a_line, with_byte};
use review_json::delivery_of_line;
use review_words::{AccountNo, Bad, ChangeQuery, Command, Delivery, Epoch, Query, RequestId};
use review_words_texts::content_text;
use std::alloc::{AllocError, Global};

/// Which request it is. The first epoch isn't told.
fn identity_text(
    alloc: Global,
    caller: AccountNo,
    epoch: Epoch,
    id: &RequestId,
) -> Result<String, AllocError> {
    let number = caller.get();
    let name = id.as_str();
    match epoch.get() {
        0 => format!(in alloc; "account {number}, id {name}"),
        epoch => format!(in alloc; "account {number}, epoch {epoch}, id {name}"),
    }
}

fn write_text(alloc: Global, identity: &str, command: &Command) -> Result<String, Fault> {
    let content = content_text(alloc, command)?;
    let content = on_a_line(alloc, content.as_str())?;
    Ok(format!(in alloc; "{identity}: {content}")?)
}

fn what_of_change(query: ChangeQuery) -> &'static str {
    match query {
        ChangeQuery::Change => "change",
        ChangeQuery::Requirements => "the requirements of change",
        ChangeQuery::Threads => "the threads of change",
        ChangeQuery::Attention => "the attention set of change",
    }
}

fn read_text(alloc: Global, caller: AccountNo, query: &Query) -> Result<String, AllocError> {
    let number = caller.get();
    match query {
        Query::Branch { project, branch } => {
            let branch = branch.as_str();
            let project = project.as_str();
            format!(in alloc; "account {number} asks for branch {branch} of {project}")
        }
        Query::OnChange { change, query } => {
            let what = what_of_change(*query);
            let change = change.get();
            format!(in alloc; "account {number} asks for {what} {change}")
        }
    }
}

fn delivery_text(alloc: Global, delivery: &Delivery) -> Result<String, Fault> {
    match delivery {
        Delivery::Write {
            caller,
            epoch,
            id,
            command,
        } => {
            let identity = identity_text(alloc, *caller, *epoch, id)?;
            write_text(alloc, identity.as_str(), command)
        }
        Delivery::Read { caller, query } => Ok(read_text(alloc, *caller, query)?),
    }
}

fn no_delivery(alloc: Global, fault: Bad) -> Result<String, Fault> {
    match fault {
        Bad::Form => Ok(String::from_str(alloc, "no delivery")?),
        Bad::Memory => Err(Fault::Memory),
    }
}

fn delivery(alloc: Global, bytes: &[u8]) -> Result<String, Fault> {
    match delivery_of_line(alloc, bytes) {
        Ok(delivery) => delivery_text(alloc, &delivery),
        Err(fault) => no_delivery(alloc, fault),
    }
}

/// What a line is as a delivery, if a word asks that.
pub fn line(alloc: Global, word: &str, text: &str) -> Result<Option<String>, Fault> {
    match word {
        "line" => Ok(Some(delivery(alloc, text.as_bytes())?)),
        "line-with-byte" => {
            let bytes = with_byte(alloc, text)?;
            Ok(Some(delivery(alloc, &bytes)?))
        }
        _ => Ok(None),
    }
}
