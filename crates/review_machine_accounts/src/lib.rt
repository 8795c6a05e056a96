//! The answers to commands on accounts, groups, epochs and the bases of branches, from the rows that decide them; and what all decisions
//! share: who asks, whether a project's file judges a request, and the delta that changes nothing.
//!
//! `CreateAccount` with a name that is taken gives the reply `NameTaken` and a delta without a row.
//!
//! - **Proved**: each answer is that of the definitions of `review_machine_rows`, and its delta makes the rows of the history with the
//!   entry.
//! - **Assumed**: nothing beyond the kit.
//! - **Only tested**: `scripts/desk.txt`.
//! - **Must not know**: what project files say, shelves, or that a request may come twice.
#![tactic(auto)]

pub mod accounts;
pub mod branches;
pub mod callers;
pub mod commits;
pub mod deltas;
pub mod epochs;
pub mod keys;
pub mod projects;

pub use accounts::{create_account, put_group};
pub use branches::record_base;
pub use callers::{is_account, is_admin, is_asker};
pub use commits::is_known;
pub use deltas::{nothing, refused};
pub use epochs::close_epoch;
pub use keys::{base_of, branch_of};
pub use projects::{is_project, needs_file};
