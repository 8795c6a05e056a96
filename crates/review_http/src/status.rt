//! The statuses of responses, and the names of faults.
ghost use Rattle.std.specs.Prelude.{◌≡◌};
ghost use Rattle.http.specs.StatusCode.{IsStatusCode};
ghost use Rattle.review_http.specs.Responses.{reply_status, fault_status, fault_name, status_of};

use review_http_requests::HttpFault;
use review_words::Reply;

fn reply_status(reply: &Reply) -> u16
    ensures { result ≡ reply_status reply.now }
{
    match reply {
        Reply::Done(_) => 200,
        Reply::Refused(refusal) => refusal.status(),
        Reply::IdentityReused => 409,
        Reply::EpochClosed => 409,
        Reply::NotTaken(_) => 503,
    }
}

fn fault_status(fault: HttpFault) -> u16
    ensures { result ≡ fault_status fault }
{
    match fault {
        HttpFault::BadHead => 400,
        HttpFault::HeadTooLarge => 431,
        HttpFault::NoRoute => 404,
        HttpFault::Method(_) => 405,
        HttpFault::NoCaller => 400,
        HttpFault::NoRequestId => 400,
        HttpFault::BadEpoch => 400,
        HttpFault::LengthRequired => 411,
        HttpFault::TooLarge => 413,
        HttpFault::BadBody => 400,
    }
}

pub fn fault_name(fault: HttpFault) -> &'static str
    ensures { result.now ≡ fault_name fault }
{
    match fault {
        HttpFault::BadHead => "BAD_HEAD",
        HttpFault::HeadTooLarge => "HEAD_TOO_LARGE",
        HttpFault::NoRoute => "NO_ROUTE",
        HttpFault::Method(_) => "METHOD",
        HttpFault::NoCaller => "NO_CALLER",
        HttpFault::NoRequestId => "NO_REQUEST_ID",
        HttpFault::BadEpoch => "BAD_EPOCH",
        HttpFault::LengthRequired => "LENGTH_REQUIRED",
        HttpFault::TooLarge => "TOO_LARGE",
        HttpFault::BadBody => "BAD_BODY",
    }
}

/// The status with which a reply or a fault is told.
pub fn status_of(told: &Result<Reply, HttpFault>) -> u16
    ensures status { result ≡ status_of told.now }
    ensures valid { IsStatusCode result }
{
    match told {
        Ok(reply) => reply_status(reply),
        Err(fault) => fault_status(*fault),
    }
}
