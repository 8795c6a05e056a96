//! Why a request is no delivery.

use crate::methods::Methods;

/// Why the bytes of a request call for no delivery. Of several causes the first counts, in this order; a head that is malformed as well as too
/// large is told as either.
#[derive(Clone, Copy, PartialEq, Eq)]
pub enum HttpFault {
    /// The head is malformed, or the input ended within it; or, after LengthRequired, its `Content-Length` isn't one field of digits.
    BadHead,
    /// There is no whole head in the first 16,384 bytes, or it has more than 64 fields.
    HeadTooLarge,
    /// The path names no resource, or a segment of it is no name or number of its kind.
    NoRoute,
    /// The method is none of those that the resource takes, which are these.
    Method(Methods),
    /// There isn't one field `X-Account` with the number of an account.
    NoCaller,
    /// There isn't one field `Request-Id` of the form of a request's id. It is asked of commands alone, not of questions, and so is all that follows.
    NoRequestId,
    /// The field `Request-Epoch` stands more than once, or isn't the number of an epoch.
    BadEpoch,
    /// There is a `Transfer-Encoding`, or no `Content-Length` where a body is needed.
    LengthRequired,
    /// The body has more than 262,144 bytes.
    TooLarge,
    /// The input ended within the body, or the body isn't the route's.
    BadBody,
}
