//! What a text says as a project file, and what a file means: which file a text spells, its faults, rights, ranges and coverage, what a
//! child inherits; and the types that these speak of.
//!
//! A project whose parent's file has the label `Verified` has it too, unless its own file has that label: then the own one counts. No new
//! file takes a value from an effective file.
//!
//! - **Proved**, as contracts of calls that do nothing: a text spells one file, or has one fault ([`one_file`], [`one_fault`],
//!   [`never_both`]); a child keeps what its parent keeps ([`children_keep_labels`]), its requirements name its labels alone
//!   ([`labels_are_known`]), the texts of a line spell one file ([`one_effective_file`]); whether an expression holds is decided by the
//!   groups that it names ([`groups_suffice`]).
//! - **Assumed**: nothing beyond the kit. Patterns that nest deeper than the engine reads are the one exception of uniqueness.
//! - **Only tested**: nothing.
//! - **Must not know**: how a file is read (`review_file` does that), or rows.
#![tactic(auto)]

pub mod fault;
pub mod groups;
pub mod inheritance_laws;
pub mod parts;
pub mod project_laws;
pub mod reading;

pub use fault::ReadFault;
pub use groups::push_groups;
pub use inheritance_laws::{children_keep_labels, labels_are_known, one_effective_file};
pub use parts::{Grant, Right};
pub use project_laws::groups_suffice;
pub use reading::{never_both, one_fault, one_file, place_within, refused_has_pattern};
