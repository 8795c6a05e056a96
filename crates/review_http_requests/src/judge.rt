//! A look at the bytes so far.
ghost use Rattle.std.specs.Prelude.{◌≡◌, ◌<◌, ◌≤◌, length, drop, take, Ok, option_map, Some, None, Err, IfOk};
ghost use Rattle.httparse.specs.Grammar.{HasNoRequest, MayBecomeRequest};
ghost use Rattle.review_http_requests.specs.Wire.{front};
ghost use Rattle.review_http_requests.specs.inner.Words.{Judges, WaitsFor, Finishes};

use crate::envelope::Envelope;
use crate::fault::unless_memory;
use crate::head::envelope_by;
use crate::{HttpFault, PathTable, RequestFault};
use httparse::spans::{EMPTY_HEADER_SPAN, parse_request};
use httparse::{Error, Status};
use review_json_routes::{command_of, query_of};
use review_words::Delivery;
use std::alloc::Global;

/// What a look at the bytes so far tells.
#[derive(Drop)]
pub enum Look {
    /// They are a whole request, for this delivery.
    Whole(Delivery),
    /// They aren't, and fewer bytes than these won't be.
    Wants(usize),
}

/// How many bytes alone are looked at for a head.
const FRONT: usize = 16_384;

/// The delivery that the bytes after a head complete what it asks for to, if they are enough for its body.
#[tactic(auto, unfolding(crate::specs::Wire::delivery_of))]
fn finish(
    alloc: Global,
    envelope: Envelope,
    end: usize,
    rest: &[u8],
    ended: bool,
) -> Result<Look, RequestFault>
    ensures { Finishes envelope end rest.now ended result }
{
    let Envelope {
        caller,
        id,
        epoch,
        route,
        length,
    } = envelope;
    if rest.len() < length {
        if ended {
            return Err(RequestFault::Http(HttpFault::BadBody));
        }
        return Ok(Look::Wants(end.saturating_add(length)));
    }
    match id {
        None => match query_of(&route) {
            Ok(query) => Ok(Look::Whole(Delivery::Read { caller, query })),
            Err(bad) => Err(unless_memory(bad, HttpFault::BadBody)),
        },
        Some(id) => match command_of(alloc, &route, &rest[..length]) {
            Ok(command) => Ok(Look::Whole(Delivery::Write {
                caller,
                epoch,
                id,
                command,
            })),
            Err(bad) => Err(unless_memory(bad, HttpFault::BadBody)),
        },
    }
}

/// The bytes that alone are looked at for a head.
fn front_of(bytes: &[u8]) -> &[u8]
    ensures { result.now ≡ front bytes.now }
{
    if bytes.len() < FRONT {
        bytes
    } else {
        &bytes[..FRONT]
    }
}

fn unfinished(bytes: &[u8], ended: bool) -> Result<Look, RequestFault>
    requires { HasNoRequest (front bytes.now) × MayBecomeRequest (front bytes.now) }
    ensures { Judges bytes.now ended result }
{
    if bytes.len() >= FRONT {
        return Err(RequestFault::Http(HttpFault::HeadTooLarge));
    }
    if !ended {
        return Ok(Look::Wants(0));
    }
    if bytes.is_empty() {
        return Err(RequestFault::Empty);
    }
    Err(RequestFault::Http(HttpFault::BadHead))
}

fn body_from(bytes: &[u8], end: usize) -> &[u8]
    requires { end ≤ length bytes.now }
    ensures { result.now ≡ drop end bytes.now }
{
    &bytes[end..]
}

/// The delivery or the fault that the bytes so far call for, if they are enough for one. Fewer than are wanted are no whole request, and are not looked at before more have come, or the end
/// of the input.
pub fn judge(
    alloc: Global,
    paths: &PathTable,
    bytes: &[u8],
    ended: bool,
    wanted: usize,
) -> Result<Look, RequestFault>
    requires { WaitsFor wanted bytes.now }
    ensures { Judges bytes.now ended result }
{
    if !ended && bytes.len() < wanted {
        return Ok(Look::Wants(wanted));
    }
    let front = front_of(bytes);
    let mut headers = [EMPTY_HEADER_SPAN; 64];
    match parse_request(front, &mut headers) {
        Ok(Status::Complete(spans)) => {
            let method = spans.method.of(front);
            let target = spans.path.of(front);
            let found = &headers[..spans.headers];
            let envelope = envelope_by(alloc, paths, method, target, front, found)?;
            let end = spans.len;
            finish(alloc, envelope, end, body_from(bytes, end), ended)
        }
        Ok(Status::Partial) => unfinished(bytes, ended),
        Err(Error::TooManyHeaders) => Err(RequestFault::Http(HttpFault::HeadTooLarge)),
        Err(_) => Err(RequestFault::Http(HttpFault::BadHead)),
    }
}
