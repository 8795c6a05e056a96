//! Look-ups in a document of TOML.
ghost use Rattle.std.specs.{List.list_any, Option.option_map_or};
ghost use Rattle.std.specs.Prelude.{◌≡◌, ℕ, List, Bool, [], IfOk, option_and_then, option_copied, option_map, string_bytes};
ghost use Rattle.toml.specs.{Data.Data, Data.as_table, Data.get, View.array_view, View.table_view, View.view};
ghost use Rattle.review_file_document.specs.Document.{is_no_table_of, members, members_at, text_at, text_of, values, values_of};

use std::alloc::{AllocError, Global};
use toml::{Table, Value};

/// The table at a key of a value, if there is one.
pub fn table_at<'v>(value: &'v Value, key: &str) -> Option<&'v Table>
    ensures table { option_map (λ t. table_view t.now) result ≡ option_and_then as_table (get key.now (view value.now)) }
    ensures members { members_at key.now (view value.now) ≡ option_map_or (λ t. members (table_view t.now)) result [] }
{
    match value.get(key) {
        Some(inner) => inner.as_table(),
        None => None,
    }
}

/// The text at a key of a value, if there is one.
pub fn text_at<'v>(value: &'v Value, key: &str) -> Option<&'v str>
    ensures { option_copied result ≡ text_at key.now (view value.now) }
{
    match value.get(key) {
        Some(inner) => inner.as_str(),
        None => None,
    }
}

/// A value as a text, the empty one where it is none.
pub fn text_of(value: &Value) -> &str
    ensures { result.now ≡ text_of (view value.now) }
{
    match value.as_str() {
        Some(text) => text,
        None => "",
    }
}

/// A copy of the text at a key of a value, if there is one. An error where there was no memory for
/// it.
pub fn copied_text(alloc: Global, value: &Value, key: &str) -> Result<Option<String>, AllocError>
    ensures { IfOk result (λ text. option_map string_bytes text ≡ text_at key.now (view value.now)) }
{
    match text_at(value, key) {
        Some(text) => Ok(Some(String::from_str(alloc, text)?)),
        None => Ok(None),
    }
}

/// A test of a member of a table: of its key and its value.
pub(crate) trait MemberTest {
    ghost is_met: { List ℕ × Data → Bool };

    fn is_met(key: &str, value: &Value) -> bool
        ensures { result ≡ is_met (key.now, view value.now) };
}

/// Whether some member of a table meets a test.
fn some_member<T: MemberTest>(table: &Table) -> bool
    ensures { result ≡ list_any T.is_met (members (table_view table.now)) }
{
    for (key, value) in table {
        if T::is_met(key.as_str(), value) {
            return true;
        }
    }
    false
}

/// Whether some member of the table at a key of a value meets a test.
pub(crate) fn some_member_at<T: MemberTest>(value: &Value, key: &str) -> bool
    ensures { result ≡ list_any T.is_met (members_at key.now (view value.now)) }
{
    match table_at(value, key) {
        Some(table) => some_member::<T>(table),
        None => false,
    }
}

/// Whether a value is no table, or one of which some member meets a test.
pub(crate) fn is_no_table_of<T: MemberTest>(value: &Value) -> bool
    ensures { result ≡ is_no_table_of T.is_met (view value.now) }
{
    match value.as_table() {
        Some(table) => some_member::<T>(table),
        None => true,
    }
}
