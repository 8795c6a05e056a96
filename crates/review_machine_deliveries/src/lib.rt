//! Deliveries that each act at most once, whatever rules decide them.
//!
//! [`run`] takes deliveries in order over any shelf and by any [`Rules`]; [`deliver`] is one step of it. A request that comes again is told
//! what it was told, or once its epoch is closed that it is, and changes nothing.
//!
//! - **Proved**: whatever comes, repeated, lost or reordered, and whichever of them a fault leaves out, tables and replies are those of the
//!   run in which each request of an open epoch stands once, at its first arrival ([`run`]); what a delivery does to any tables whatever,
//!   and what a stop of the machine may leave ([`deliver`]); runs, restarts and stops compose ([`runs_compose`], [`runs_go_on`],
//!   [`restart_completes`]).
//! - **Assumed**: what is said of tables holds where the shelf's store was honest.
//! - **Only tested**: stops and kills of the built program (`bench/stops`, `bench/kills`).
//! - **Must not know**: what a command means, which rules decide, or how tables are kept, which a shelf does.
#![tactic(auto)]

pub mod deliveries;
pub mod gathering;
pub mod laws;
pub mod rules;
pub mod runs;

pub use deliveries::deliver;
pub use gathering::{gather, gathered};
pub use laws::{one_answer, restart_completes, runs_compose, runs_go_on};
pub use rules::Rules;
pub use runs::{Stopped, run};
