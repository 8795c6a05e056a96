//! The document of a project file: what is asked of a text that is TOML before its expressions are read. Keys and their types, names,
//! values of labels, limits.
//!
//! `[label.Code-Review]` with `values = {0 = "No score"}` is one, `[label.Code-Review]` with `color = 1` is not.
//!
//! - **Proved**: each reader gives what its part of a document spells, or refuses it.
//! - **Assumed**: nothing beyond the kit, whose `toml` says what a document is.
//! - **Only tested**: `language_scripts`.
//! - **Must not know**: expressions, rights or projects.
#![tactic(auto)]

pub mod document;
pub mod keys;
pub mod limits;
pub mod names;
pub mod values;
