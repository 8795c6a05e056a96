//! Project files: the access rights, labels and submit requirements of a project, read from TOML.
//!
//! ```toml
//! [access]
//! create = ["Registered-Users"]
//! [label.Code-Review]
//! copyCondition = "is:MIN"
//! values = {-1 = "Prefer not", 0 = "No score", "+1" = "Approved"}
//! grant = {Core = [-1, 1]}
//! [submit-requirement.Code-Review]
//! submittableIf = "label:Code-Review=MAX"
//! ```
//!
//! [`read_file`] gives the file that a text spells, or the first of its faults in the order of [`FileFault`]. A file, a [`Label`] and a
//! [`Requirement`] are shared: a copy has the same parts and takes no memory. [`covers`] holds one file against another, [`may`] and
//! [`range_of`] tell what a file gives an account; these take no memory.
//!
//! - **Proved**: all of this, each in the contract of its call; what is true of every file [`ProjectFile::facts`] tells.
//! - **Assumed**: nothing beyond the kit.
//! - **Only tested**: `language_scripts` runs files with their faults.
//! - **Must not know**: the files of parents (`review_file_lines`), rows or changes.
#![tactic(auto)]

mod access;
pub mod covering;
pub mod file;
pub mod granted;
mod labels;
pub mod read;
mod requirements;
mod rights;
pub mod unknown;

pub use covering::covers;
pub use file::{Access, Content, Label, LabelValue, ProjectFile, Requirement};
pub use granted::{grants_of, may, range_of};
pub use read::{named_parent, read_file};
pub use review_file_document::limits::{MOST_BYTES, MOST_DESCRIPTION, MOST_PARTS, MOST_TEXT};
pub use review_file_rules::{Grant, ReadFault, Right};
pub use review_words::FileFault;
pub use unknown::some_requires_other;
