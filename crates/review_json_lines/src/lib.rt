//! Deliveries by the line, over any reader, writer and shelf, whatever rules decide them.
//!
//! [`apply_lines`] reads lines, takes the delivery of each, and writes a line with the answer. A blank line gets no answer, and a line that
//! is no delivery gets `{"fault":"BAD_LINE"}`.
//!
//! - **Proved**: the deliveries of the lines were a run, and what was written is the answers to them, also where a fault ended it
//!   (`WereAnswered`).
//! - **Assumed**: of a reader and a writer whose bytes the library doesn't tell, nothing is said of bytes.
//! - **Only tested**: `bench/fail_streams` with the built program.
//! - **Must not know**: what a delivery means.
#![tactic(auto)]

mod apply;
mod fault;
mod lines;
mod output;

pub use apply::apply_lines;
pub use fault::{Fault, Outcome};
pub use output::{Output, write_and_flush};
