//! HTTP requests: a reader's bytes read as the delivery that they call for, or as the first of their faults.
//!
//! `GET /changes/7` with `X-Account: 2` is the question for change 7. `POST /changes/7/submit` with `Request-Id: s1` is a command.
//! `X-Account` says who asks, and `Request-Id` is the id of a command. A path is routed before it is decoded, so
//! `/projects/tools/branches/release%2F1.0` has the four segments that one sees, and names the branch `release/1.0`. [`HttpFault`] lists
//! why a request is no delivery, in the order in which faults are told.
//!
//! - **Proved**: what is told is what the bytes call for (`CallsFor`), however they are cut, in at most 4,096 reads ([`read_request`]); it
//!   is one thing but where a head is malformed and also too large (the laws); each path of the table is in it ([`table_holds_each_path`]).
//!   Readers and writers count their reads and faults ([`Counted`]).
//! - **Assumed**: nothing beyond the kit, whose `httparse` says what a head is, and `matchit` which resource a path names.
//! - **Only tested**: `scripts/http.txt` byte for byte; `value_tests` over a socket.
//! - **Must not know**: shelves, or what a delivery means.
#![tactic(auto)]

mod counted;
mod envelope;
mod fault;
mod fields;
mod head;
pub mod http_fault;
mod judge;
pub mod methods;
pub mod path_laws;
mod reading;
mod request;
mod request_laws;
pub mod routing;
pub mod table;
mod writing;

pub use counted::Counted;
pub use envelope::Envelope;
pub use fault::RequestFault;
pub use http_fault::HttpFault;
pub use methods::Methods;
pub use path_laws::table_holds_each_path;
pub use reading::{Stop, read_more};
pub use request::read_request;
pub use request_laws::{
    calls_for_one_thing, cuts_do_not_matter, nothing_calls_for_nothing, nothing_is_empty,
    waiting_calls_for_nothing,
};
pub use routing::route_of;
pub use table::{PathTable, Resource};
pub use writing::{WriteFault, write_and_flush};
