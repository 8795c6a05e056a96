//! Effective project files: what a project's own file and those of its ancestors say together.
//!
//! [`inherit`] gives the effective file of a project whose file goes on from its parent's. A [`ReadLine`] is an effective file with the
//! texts that spell it. A [`FileMemo`] remembers those that were read, by project, each held to its texts, and hands out copies: a vote on
//! the project that the last one was on reads no file.
//!
//! - **Proved**: the effective file is the one of the rules; a remembered file is the one that the texts at hand spell ([`FileMemo::get`]).
//! - **Assumed**: nothing beyond the kit.
//! - **Only tested**: that reading once suffices is measured (`bench/parents`).
//! - **Must not know**: where texts are kept, or changes.
#![tactic(auto)]

pub mod inheriting;
pub mod lines;
pub mod memo;
pub mod texts;

pub use inheriting::{InheritFault, inherit, inherit_stored};
pub use lines::{LinePart, MOST_DEPTH, ReadLine};
pub use memo::FileMemo;
pub use texts::ReadText;
