//! What a head asks for.
ghost use Rattle.std.specs.Prelude.{◌≡◌, ◌≤◌, length, map, All};
ghost use Rattle.{std.specs.Str.IsUtf8, httparse.specs.Spans.header_bytes, httparse.specs.Spans.IsHeaderWithin};
ghost use Rattle.review_http_requests.specs.Heads.{Answers, caller_of, id_of, epoch_of, length_of, path_of, question_by, envelope_by};
ghost use Rattle.review_http_requests.specs.inner.Words.{seen};

use crate::envelope::Envelope;
use crate::fault::unless_memory;
use crate::fields::{Field, fields_of, number_shown, one_value};
use crate::{HttpFault, PathTable, RequestFault, route_of};
use httparse::spans::HeaderSpan;
use review_json_routes::{Route, is_question, name_of_bytes, needs_body};
use review_names::{read_account, read_number};
use review_words::{AccountNo, Epoch, RequestId};
use std::alloc::Global;

fn caller_of(found: Field<'_>) -> Result<AccountNo, RequestFault>
    ensures { Answers result (caller_of (seen found.entry)) }
{
    one_value(found)
        .and_then(read_account)
        .ok_or(RequestFault::Http(HttpFault::NoCaller))
}

fn id_of(alloc: Global, found: Field<'_>) -> Result<RequestId, RequestFault>
    ensures { Answers result (id_of (seen found.entry)) }
{
    let Some(value) = one_value(found) else {
        return Err(RequestFault::Http(HttpFault::NoRequestId));
    };
    match name_of_bytes(alloc, value) {
        Ok(id) => Ok(id),
        Err(bad) => Err(unless_memory(bad, HttpFault::NoRequestId)),
    }
}

fn epoch_of(found: Field<'_>) -> Result<Epoch, RequestFault>
    ensures { Answers result (epoch_of (seen found.entry)) }
{
    match found {
        Field::Absent => Ok(Epoch::first()),
        Field::Again => Err(RequestFault::Http(HttpFault::BadEpoch)),
        Field::Once(value) => read_number(value)
            .and_then(Epoch::from_number)
            .ok_or(RequestFault::Http(HttpFault::BadEpoch)),
    }
}

/// How many bytes the body has. A coding is refused, whatever the length.
fn length_of(coding: Field<'_>, length: Field<'_>, is_needed: bool) -> Result<usize, RequestFault>
    ensures { Answers result (length_of is_needed (seen coding.entry) (seen length.entry)) }
{
    let fault = match (coding, length) {
        (Field::Absent, Field::Absent) if !is_needed => return Ok(0),
        (Field::Absent, Field::Once(value)) => match number_shown(value) {
            Some(length) if length <= 262_144 => return Ok(length),
            Some(_) => HttpFault::TooLarge,
            None => HttpFault::BadHead,
        },
        (Field::Absent, Field::Again) => HttpFault::BadHead,
        _ => HttpFault::LengthRequired,
    };
    Err(RequestFault::Http(fault))
}

/// The path of a target, up to a `?`.
fn path_of(target: &[u8]) -> &str
    requires { IsUtf8 target.now }
    ensures { result.now ≡ path_of target.now }
{
    let Ok(target) = str::from_utf8(target) else {
        unreachable!()
    };
    match target.split_once('?') {
        Some((path, _)) => path,
        None => target,
    }
}

/// A question has no id, is of no epoch and has no body, whatever its fields say of these.
fn question_by(caller: AccountNo, route: Route) -> Envelope
    ensures { result ≡ question_by caller route }
{
    Envelope {
        caller,
        id: None,
        epoch: Epoch::first(),
        route,
        length: 0,
    }
}

/// The envelope that a head gives, or the first of the head's faults: of its path, its method, its fields. Of a request these are its id, its epoch and its length.
#[tactic(auto, unfolding(crate::specs::Heads::envelope_by))]
pub fn envelope_by(
    alloc: Global,
    paths: &PathTable,
    method: &[u8],
    target: &[u8],
    buf: &[u8],
    headers: &[HeaderSpan],
) -> Result<Envelope, RequestFault>
    requires text { IsUtf8 target.now }
    requires within { All (IsHeaderWithin (length buf.now)) headers.now }
    ensures { Answers result (envelope_by method.now target.now (map (header_bytes buf.now) headers.now)) }
{
    let route = route_of(alloc, paths, method, path_of(target))?;
    let fields = fields_of(buf, headers);
    let caller = caller_of(fields.caller)?;
    if is_question(&route) {
        return Ok(question_by(caller, route));
    }
    let id = id_of(alloc, fields.id)?;
    let epoch = epoch_of(fields.epoch)?;
    let length = length_of(fields.coding, fields.length, needs_body(&route))?;
    Ok(Envelope {
        caller,
        id: Some(id),
        epoch,
        route,
        length,
    })
}
