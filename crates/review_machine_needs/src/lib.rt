//! What commands and questions are judged by: what each asks of the tables, step by step, and the file by which it is judged; and the
//! answer to a new file of a project.
//!
//! A command asks first what is known from itself, then what the change that it names asks, then the files of the ancestors of the project
//! by whose file it is judged, one by one, then what the effective file of this project asks, and last the changes of the chain that a
//! submit joins, one by one. [`next_need`] takes the step that asking has come to, and tells the next: for a vote the change, then its
//! project's file, then the groups that the label grants a range.
//!
//! - **Proved**: what is asked is what the definitions list (`specs/Steps` of `review_machine_rows`); the file that is read is the
//!   effective one.
//! - **Assumed**: nothing beyond the kit.
//! - **Only tested**: what asking costs (`bench/instructions`).
//! - **Must not know**: shelves, or what a request makes of a change.
#![tactic(auto)]

mod chains;
mod changes;
mod files;
mod first;
mod judging;
mod lines;
mod needs;
pub mod projects;
pub mod reading;

pub use needs::next_need;
pub use projects::put_project;
pub use reading::read_file_for;
