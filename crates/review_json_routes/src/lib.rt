//! What a delivery is addressed to, and the command or the question that it is.
//!
//! A [`Route`] has one case for each delivery (with [`ChangeRoute`] those on a change), and what its address says. A line's members are one
//! way to write it, and the path of an HTTP request another. [`command_of`] gives the command that a body completes a route to;
//! [`query_of`] gives the question that a route is. Members that nothing asks for are ignored. `null` isn't absent, and a whole number is
//! one that is written so: `2.0` and `1e0` are none.
//!
//! - **Proved**: each reader gives what its member or body spells, by the JSON reader's definition of what a text spells, and refuses it
//!   exactly where it spells nothing of the kind.
//! - **Assumed**: nothing beyond the kit, whose `serde_json` says what a text spells.
//! - **Only tested**: `word_scripts` runs bodies; `scripts/http.txt` routes.
//! - **Must not know**: paths, lines or answers.
#![tactic(auto)]

pub mod changes;
pub mod commands;
pub mod comments;
pub mod parts;
pub mod questions;
pub mod reviews;
pub mod roles;
pub mod route;
pub mod texts;
pub mod votes;

pub use changes::{new_change, new_patch};
pub use commands::{command_in, command_of};
pub use parts::{
    account_at, change_at, epoch_at, epoch_or_first, file_at, members_at, name_at, text_at,
};
pub use questions::{is_question, needs_body, query_of};
pub use reviews::{has_refused, patch_in};
pub use roles::{account_named_at, role_in};
pub use route::{ChangeRoute, Route};
pub use texts::{name_of_bytes, value_of};

/// Why a line or a body was not read as a delivery.
pub type BadBody = review_names::Bad;
