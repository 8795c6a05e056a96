//! A request over HTTP: read, taken and answered, over any reader, writer and shelf, whatever rules decide it; and connections, one after
//! the other.
//!
//! A response is `HTTP/1.1`, the status with the phrase that `http` has for it, the fields `Content-Type`, `Content-Length`, for a method
//! that a resource doesn't take `Allow`, and `Connection: close`, an empty line, `)]}'` on a line of its own as Gerrit puts it before JSON,
//! the JSON text, and a line feed. The status of a refusal is that of `review_words`; the JSON of a reply is that of a line.
//!
//! - **Proved**: from the bytes that were read to those that were written, however they were cut ([`serve_request`]); what peers send over
//!   any source of connections is a run, and each was told what it asked for ([`serve_connections`]).
//! - **Assumed**: as of lines, bytes are spoken of where the library tells them.
//! - **Only tested**: `scripts/http.txt`, `bench/fail_connections`, `bench/desk_times`.
//! - **Must not know**: sockets, or what a delivery means.
#![tactic(auto)]

mod connections;
mod response;
mod serve;
mod status;

pub use connections::{Connections, ConnectionsFault, serve_connections};
pub use response::response_of;
pub use serve::{ServeFault, Served, serve_request};
pub use status::status_of;
