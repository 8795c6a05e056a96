//! Routes, and what the bytes of a body make of them.

use crate::fault::Fault;
use crate::texts::{on_a_line, with_byte};
use review_json::routes::route_named;
use review_json_routes::{
    Route, command_of, is_question, name_of_bytes, needs_body, text_at, value_of,
};
use review_words::{Bad, Command, RequestId};
use review_words_texts::content_text;
use std::alloc::Global;

/// What bytes spell, or none where they spell nothing.
fn spelled<T>(read: Result<T, Bad>) -> Result<Option<T>, Fault> {
    match read {
        Ok(value) => Ok(Some(value)),
        Err(Bad::Form) => Ok(None),
        Err(Bad::Memory) => Err(Fault::Memory),
    }
}

fn route_of(alloc: Global, line: &str) -> Result<Route, Fault> {
    let line = spelled(value_of(alloc, line.as_bytes()))?.ok_or(Fault::Form)?;
    let name = text_at("do", &line).ok_or(Fault::Form)?;
    spelled(route_named(alloc, name, &line))?.ok_or(Fault::Form)
}

fn kind_text(route: &Route) -> &'static str {
    if is_question(route) {
        "a question"
    } else if needs_body(route) {
        "a command that needs a body"
    } else {
        "a command whose body may be empty"
    }
}

fn route(alloc: Global, line: &str) -> Result<String, Fault> {
    let route = route_of(alloc, line)?;
    Ok(String::from_str(alloc, kind_text(&route))?)
}

fn command_text(alloc: Global, command: &Command) -> Result<String, Fault> {
    let content = content_text(alloc, command)?;
    on_a_line(alloc, content.as_str())
}

fn body(alloc: Global, text: &str) -> Result<String, Fault> {
    let (line, body) = text.split_once(" ").unwrap_or((text, ""));
    let route = route_of(alloc, line)?;
    match spelled(command_of(alloc, &route, body.as_bytes()))? {
        Some(command) => command_text(alloc, &command),
        None => Ok(String::from_str(alloc, "no command")?),
    }
}

fn request_id(alloc: Global, text: &str) -> Result<String, Fault> {
    let bytes = with_byte(alloc, text)?;
    let id: Option<RequestId> = spelled(name_of_bytes(alloc, &bytes))?;
    let answer = id.as_ref().map_or("no form", |id| id.as_str());
    Ok(String::from_str(alloc, answer)?)
}

/// What a route is, or a route with a body, or bytes as an id, if a word asks that.
pub fn addressed(alloc: Global, word: &str, text: &str) -> Result<Option<String>, Fault> {
    let answer = match word {
        "route" => route(alloc, text),
        "body" => body(alloc, text),
        "request-id-with-byte" => request_id(alloc, text),
        _ => return Ok(None),
    };
    Ok(Some(answer?))
}
