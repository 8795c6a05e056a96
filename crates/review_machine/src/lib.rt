//! The desk: deliveries that each act at most once, decided by its rules.
//!
//! [`apply_lines`] takes deliveries by the line, over any shelf: whatever deliveries come, repeated, lost or reordered, and whichever of
//! them a fault leaves out, tables and replies are those of the run in which each request of an open epoch stands once, at its first
//! arrival. [`apply_in_memory`] says so of an empty desk in memory, as the program calls it for `apply :memory:`, [`serve_one`] of one
//! request over HTTP; for a desk in a file the program calls `review_desk_work` with the same rules. [`run`] takes a list of deliveries and
//! [`deliver`] one. All are those of the crates below, with [`DeskRules`]: they ask the tables and read the file of the project by which a
//! command is judged, by `review_machine_needs`, and decide by [`decide`]; they remember the files that they read, and no answer depends on
//! which.
//!
//! - **Proved**: all of this; from the rows that decide them [`decide`] gives a command's reply and what it changes, [`show`] the answer to
//!   a question.
//! - **Assumed**: an honest store, but in memory. `docs/proofs.md` has the premises.
//! - **Only tested**: `scripts/desk.txt`, and a model of the desk in another language (`bench/model`).
//! - **Must not know**: files, sockets or a command line; and its rules of where rows come from, or that a request may come twice.
#![tactic(auto)]

pub mod apply;
pub mod decisions;
pub mod desk;
pub mod memory;
pub mod rules;
pub mod serve;

pub use apply::apply_lines;
pub use decisions::decide;
pub use desk::{deliver, run};
pub use memory::apply_in_memory;
pub use review_json_lines::{Fault, Outcome};
pub use review_machine_deliveries::{
    Stopped, gather, one_answer, restart_completes, runs_compose, runs_go_on,
};
pub use review_machine_needs::next_need;
pub use review_machine_rows::{Delta, Kept, Matter, Need, Rows, Shelf, ShelfFault};
pub use review_machine_submits::show;
pub use review_memory::{FaultyShelf, MemoryShelf, ShuttingShelf};
pub use rules::DeskRules;
pub use serve::serve_one;
