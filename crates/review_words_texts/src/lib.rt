//! The texts that are stored of commands and replies: fields, each its length in bytes, a colon, its bytes and a comma. The name `ann` is
//! the field `3:ann,`.
//!
//! - **Proved**: equal content texts come only from equal commands, equal reply texts only from equal replies ([`content_tells`],
//!   [`reply_tells`]); [`read_reply`] reads a stored reply back as itself, and no other text.
//! - **Assumed**: nothing beyond the kit.
//! - **Only tested**: `word_scripts` runs both writers and the reader.
//! - **Must not know**: where texts are stored.
#![tactic(auto)]

pub mod content;
pub mod laws;
pub mod pieces;
pub mod reading;
pub mod replies;

pub use content::content_text;
pub use laws::{content_tells, reply_tells};
pub use pieces::{Piece, cut, field_at, joined};
pub use reading::read_reply;
pub use replies::reply_text;

/// Why a text was not read as a stored reply.
pub type BadReply = review_names::Bad;
