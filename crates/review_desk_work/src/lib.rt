//! Tasks on the tables of a connection, whatever rules decide deliveries; the words of the program; the pages of a change and of a branch.
//!
//! [`create`] makes an empty desk, [`migrate`] brings one of an earlier version to the latest, and [`work`] does a task on the desk that is
//! there: it takes the lines of a reader, serves connections over HTTP, or shows a change or a branch. Each hands the connection back, in
//! no transaction. [`job_of`] reads the words after the program's name by `clap`: `show desk.db --change 7` is a job. [`change_text`] is
//! the page of a change as text, as `change 1 NEW` and what follows.
//!
//! - **Proved**: what was done to the tables and what was written, also where a fault ended it, which [`ProgramFault`] names; which words
//!   give which job, or the first fault that they have; which bytes a page is.
//! - **Assumed**: an honest store; what `clap` makes of words is its own definition.
//! - **Only tested**: sessions of the program (`scripts/program.txt`).
//! - **Must not know**: how files and sockets are opened.
#![tactic(auto)]

mod asking;
mod command;
mod ending;
mod fault;
mod job;
mod lines;
mod notices;
mod output;
mod pages;
mod reading;
mod serving;
mod show_fault;
mod showing;
mod task;
mod words_fault;
mod working;

pub use ending::{after_closing, status_of};
pub use fault::ProgramFault;
pub use job::{Job, Place};
pub use notices::Notices;
pub use pages::{change_text, joined_text};
pub use reading::job_of;
pub use review_sql::is_shut;
pub use serving::{MOST_IN_ROW, left_by, row_with};
pub use show_fault::ShowFault;
pub use showing::{joined_lines, show_lines};
pub use task::{Ends, Task};
pub use words_fault::WordsFault;
pub use working::{create, migrate, work};
