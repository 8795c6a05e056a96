//! Deliveries and answers as JSON, over the routes of `review_json_routes`.
//!
//! A delivery is a line such as `{"caller":1,"id":"a1","do":"CreateAccount","body":{"name":"ann"}}`, or for a question
//! `{"caller":1,"do":"Branch","project":"tools","branch":"main"}`, and the answer to it a text such as `{"account":2}`,
//! `{"bases":[],"joined":[]}` or `[{"name":"Code-Review","status":"SATISFIED"}]`.
//!
//! - **Proved**: [`delivery_of_line`] gives the delivery that a line spells, and refuses a line exactly where it spells none;
//!   [`answer_text`] is the compact text of an answer, members in the order of their keys; the comments that lines and bodies spell go by
//!   the bytes of their places ([`comments_go_by_place`]).
//! - **Assumed**: nothing beyond the kit.
//! - **Only tested**: `word_scripts`, `scripts/desk.txt`.
//! - **Must not know**: readers, shelves or HTTP.
#![tactic(auto)]

pub mod answer;
pub mod laws;
pub mod line;
pub mod routes;
mod shown;
mod text;
mod values;

pub use answer::answer_text;
pub use laws::comments_go_by_place;
pub use line::delivery_of_line;
pub use review_json_routes::BadBody;
