//! Why no delivery came of a request.
ghost use Rattle.std.specs.Prelude.{◌≡◌};
ghost use Rattle.review_http_requests.specs.Heads.{unless_memory};

use crate::HttpFault;
use review_names::Bad;

/// Why no delivery came of a request.
#[derive(Clone, Copy, PartialEq, Eq)]
pub enum RequestFault {
    /// The input ended before its first byte.
    Empty,
    /// The bytes call for no delivery.
    Http(HttpFault),
    /// The reader failed, before a whole request or a fault of its head was there.
    Read,
    /// 4,096 reads gave no whole request, and no fault of its head.
    Reads,
    /// There was no memory for the request.
    Memory,
}

/// The fault that a part of a request is where it can't be read, unless memory ran out.
pub fn unless_memory(bad: Bad, fault: HttpFault) -> RequestFault
    ensures { result ≡ unless_memory bad fault }
{
    match bad {
        Bad::Form => RequestFault::Http(fault),
        Bad::Memory => RequestFault::Memory,
    }
}
