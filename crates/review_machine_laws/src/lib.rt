//! What holds in every history, as contracts of calls that do nothing; and in its proofs what rows tell of a history.
//!
//! No change stands twice among those that joined a branch ([`joined_once`]), each line of projects ends, no request narrows an effective
//! file ([`files_stay_sound`]).
//!
//! - **Proved**: of changes [`changes_are_sound`]; of branches [`branches_are_sound`], [`accepted_submit`], [`parents_join_first`],
//!   [`places_are_kept`]; of projects and votes [`projects_are_sound`]; of rows [`rows_are_parts`], [`wants_are_unknown`]. Those of
//!   branches, projects and votes every run says of the history that it leaves (`WasRun`).
//! - **Assumed**: nothing beyond the kit.
//! - **Only tested**: nothing.
//! - **Must not know**: decisions or shelves.
#![tactic(auto)]

pub mod branch_laws;
pub mod change_laws;
pub mod facts;
pub mod project_laws;
pub mod votes;

pub use branch_laws::{
    accepted_submit, branches_are_sound, joined_few, joined_is_listed, joined_once, last_is_length,
    parents_join_first, places_are_kept,
};
pub use change_laws::{changes_are_sound, histories_are_read};
pub use facts::{
    branches_are_whole, commits_are_apart, parents_are_known, rows_are_parts, standings_are_shown,
    wants_are_unknown,
};
pub use project_laws::files_stay_sound;
pub use votes::projects_are_sound;
