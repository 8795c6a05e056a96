//! The columns of a row, as they read.
ghost use Rattle.std.specs.Prelude.{◌≡◌, option_map};
ghost use Rattle.sqlite_value.specs.Order.{column};
ghost use Rattle.review_sql_tables.specs.Search.{number_in, text_in};

use sqlite::Row;
use sqlite::types::ValueRef;

/// The text of a column; none where it is no text, or not UTF-8.
pub fn text_at(row: &Row, at: usize) -> Option<&str>
    ensures { option_map (λ s. s.now) result ≡ text_in (column row.now at) }
{
    match row.get_ref(at) {
        Ok(ValueRef::Text(bytes)) => match str::from_utf8(bytes) {
            Ok(text) => Some(text),
            Err(_) => None,
        },
        _ => None,
    }
}

/// The number of a column; none where it is no integer, or negative.
pub fn number_at(row: &Row, at: usize) -> Option<u64>
    ensures { result ≡ number_in (column row.now at) }
{
    match row.get_ref(at) {
        Ok(ValueRef::Int(number)) => match u64::try_from(number) {
            Ok(number) => Some(number),
            Err(_) => None,
        },
        _ => None,
    }
}
