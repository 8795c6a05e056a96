//! The envelope of a delivery over HTTP.

use review_json_routes::Route;
use review_words::{AccountNo, Epoch, RequestId};

/// What the head of a request says of its delivery: who asks, under which id and in which epoch, to whom it is addressed, and how long its body is, which is still to come.
#[derive(Drop)]
pub struct Envelope {
    pub caller: AccountNo,
    /// None of a question.
    pub id: Option<RequestId>,
    /// The first of a question, which is of none.
    pub epoch: Epoch,
    pub route: Route,
    /// How many bytes the body has, at most 262,144.
    pub length: usize,
}
