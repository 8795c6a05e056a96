//! The limits of a project file.
ghost use Rattle.std.specs.{List.list_any, Prelude.◌≡◌, Prelude.codes, Prelude.length, Prelude.nat_lt};
ghost use Rattle.toml.specs.View.{table_view, view};
ghost use Rattle.review_file_document.specs.Document.{members, members_at, text_of};
ghost use Rattle.review_file_document.specs.Limits.{has_long_description, has_long_text, is_past_limits, most_parts};

use crate::document::{MemberTest, some_member_at, table_at, text_at, text_of};
use toml::Value;

/// The most bytes of a project file.
pub const MOST_BYTES: usize = 65_536;

/// The most labels of a project file, and the most submit requirements.
pub const MOST_PARTS: usize = 64;

/// The most bytes of a description.
pub const MOST_DESCRIPTION: usize = 1_024;

/// The most bytes of the text of a label's value.
pub const MOST_TEXT: usize = 256;

#[tactic(auto, using(crate::proofs::Tables::length_members))]
fn has_too_many(file: &Value, section: &str) -> bool
    ensures { result ≡ nat_lt most_parts (length (members_at section.now (view file.now))) }
{
    match table_at(file, section) {
        Some(parts) => parts.len() > MOST_PARTS,
        None => false,
    }
}

fn has_long_description(part: &Value) -> bool
    ensures { result ≡ has_long_description (view part.now) }
{
    match text_at(part, "description") {
        Some(text) => text.len() > MOST_DESCRIPTION,
        None => false,
    }
}

/// A value with too long a description.
struct LongDescription;

impl MemberTest for LongDescription {
    ghost is_met = { λ m. has_long_description m.1 };

    fn is_met(_key: &str, value: &Value) -> bool {
        has_long_description(value)
    }
}

/// Too long a text.
struct LongText;

impl MemberTest for LongText {
    ghost is_met = { λ m. nat_lt 256 (length (text_of m.1)) };

    fn is_met(_key: &str, text: &Value) -> bool {
        text_of(text).len() > MOST_TEXT
    }
}

/// A label with too long a text of a value.
struct LongLabel;

impl MemberTest for LongLabel {
    ghost is_met = { λ m. has_long_text m.1 };

    fn is_met(_key: &str, label: &Value) -> bool {
        some_member_at::<LongText>(label, "values")
    }
}

/// Whether the file has more labels or requirements than it may, or too long a description or text
/// of a value.
pub fn is_past_limits(file: &Value) -> bool
    ensures { result ≡ is_past_limits (view file.now) }
{
    has_too_many(file, "label")
        || has_too_many(file, "submit-requirement")
        || has_long_description(file)
        || some_member_at::<LongDescription>(file, "submit-requirement")
        || some_member_at::<LongLabel>(file, "label")
}
