//! The values of labels.
ghost use Rattle.std.specs.{List.list_any, Prelude.◌≡◌, Prelude.ℤ, Prelude.not, Prelude.◌&&◌, Prelude.codes};
ghost use Rattle.{std.specs.Str.bytes_eq, toml.specs.View.table_view, toml.specs.View.view};
ghost use Rattle.review_file_document.specs.Document.{members, members_at};
ghost use Rattle.review_file_document.specs.Values.{digits, end_at, has_bad_values, has_double, has_twice, has_value, has_value_twice, is_bad_grant, is_bad_key, is_bad_label, is_bad_value, is_no_run, spells, towards_zero, value_of};

use crate::document::{MemberTest, some_member_at, table_at};
use toml::{Table, Value};

fn digits(bytes: &[u8]) -> Option<i8>
    ensures { result ≡ digits bytes.now }
{
    match bytes {
        [d @ 49..=57] => Some((*d - 48) as i8),
        [d @ 49..=57, e @ 48..=57] => Some(((*d - 48) * 10 + (*e - 48)) as i8),
        _ => None,
    }
}

fn signed_digits(bytes: &[u8]) -> Option<i8>
    ensures { result ≡ value_of bytes.now }
{
    match bytes {
        [] => None,
        [48] => Some(0),
        [43, rest @ ..] => digits(rest),
        [45, rest @ ..] => match digits(rest) {
            Some(number) => Some(-number),
            None => None,
        },
        _ => digits(bytes),
    }
}

/// The value that a key spells: `0`, or 1 to 99 without leading zeros, with a sign or without one.
pub fn value_of(key: &str) -> Option<i8>
    ensures { result ≡ value_of key.now }
{
    signed_digits(key.as_bytes())
}

fn spells(value: i64, key: &str) -> bool
    ensures { result ≡ spells value key.now }
{
    match value_of(key) {
        Some(spelled) => spelled as i64 == value,
        None => false,
    }
}

fn has_value(value: i64, values: &Table) -> bool
    ensures { result ≡ has_value value (members (table_view values.now)) }
{
    for (key, _) in values {
        if spells(value, key.as_str()) {
            return true;
        }
    }
    false
}

/// Whether another key spells a value.
fn has_other(values: &Table, key: &str, value: i64) -> bool
    ensures { result ≡ list_any (λ m. not (bytes_eq m.0 key.now) && spells value m.0) (members (table_view values.now)) }
{
    for (other, _) in values {
        if other.as_str() != key && spells(value, other.as_str()) {
            return true;
        }
    }
    false
}

fn has_double(values: &Table, key: &str) -> bool
    ensures { result ≡ has_double (members (table_view values.now)) key.now }
{
    match value_of(key) {
        Some(value) => has_other(values, key, value as i64),
        None => false,
    }
}

fn has_twice(values: &Table) -> bool
    ensures { result ≡ has_twice (members (table_view values.now)) }
{
    for (key, _) in values {
        if has_double(values, key.as_str()) {
            return true;
        }
    }
    false
}

/// A label with a value under two keys.
struct ValueTwice;

impl MemberTest for ValueTwice {
    ghost is_met = { λ m. has_twice (members_at (codes "values") m.1) };

    fn is_met(_key: &str, label: &Value) -> bool {
        match table_at(label, "values") {
            Some(values) => has_twice(values),
            None => false,
        }
    }
}

/// Whether a value of a label stands under two keys.
pub fn has_value_twice(file: &Value) -> bool
    ensures { result ≡ has_value_twice (view file.now) }
{
    some_member_at::<ValueTwice>(file, "label")
}

fn towards_zero(value: i64) -> i64
    ensures { result ≡ towards_zero value }
{
    if value > 0 {
        value - 1
    } else if value < 0 {
        value + 1
    } else {
        value
    }
}

/// Whether a value is out of range, or there is a gap between it and 0.
fn is_bad_value(values: &Table, value: i64) -> bool
    ensures { result ≡ is_bad_value (members (table_view values.now)) value }
{
    value < -20 || value > 20 || !has_value(towards_zero(value), values)
}

fn is_bad_key(values: &Table, key: &str) -> bool
    ensures { result ≡ is_bad_key (members (table_view values.now)) key.now }
{
    match value_of(key) {
        Some(value) => is_bad_value(values, value as i64),
        None => true,
    }
}

fn has_bad_key(values: &Table) -> bool
    ensures { result ≡ list_any (λ m. is_bad_key (members (table_view values.now)) m.0) (members (table_view values.now)) }
{
    for (key, _) in values {
        if is_bad_key(values, key.as_str()) {
            return true;
        }
    }
    false
}

/// Whether keys aren't those of at least two values in an unbroken run with 0 among them.
#[tactic(auto, using(crate::proofs::Tables::length_members))]
fn is_no_run(values: &Table) -> bool
    ensures { result ≡ is_no_run (members (table_view values.now)) }
{
    values.len() < 2 || !has_value(0, values) || has_bad_key(values)
}

/// The number at a place of an array, or 0.
pub fn end_at(range: &Value, place: usize) -> i64
    ensures { result ≡ end_at place (view range.now) }
{
    match range.get(place) {
        Some(number) => number.as_integer().unwrap_or(0),
        None => 0,
    }
}

fn is_bad_grant(values: &Table, range: &Value) -> bool
    ensures { result ≡ is_bad_grant (members (table_view values.now)) (view range.now) }
{
    let least = end_at(range, 0);
    let greatest = end_at(range, 1);
    !(has_value(least, values) && has_value(greatest, values) && least <= greatest)
}

fn some_bad_grant(values: &Table, grants: &Table) -> bool
    ensures { result ≡ list_any (λ g. is_bad_grant (members (table_view values.now)) g.1) (members (table_view grants.now)) }
{
    for (_, range) in grants {
        if is_bad_grant(values, range) {
            return true;
        }
    }
    false
}

fn has_bad_grant(values: &Table, label: &Value) -> bool
    ensures { result ≡ list_any (λ g. is_bad_grant (members (table_view values.now)) g.1) (members_at (codes "grant") (view label.now)) }
{
    match table_at(label, "grant") {
        Some(grants) => some_bad_grant(values, grants),
        None => false,
    }
}

/// A label with bad values, or with a grant whose ends aren't values in order.
struct BadLabel;

impl MemberTest for BadLabel {
    ghost is_met = { λ m. is_bad_label m.1 };

    fn is_met(_key: &str, label: &Value) -> bool {
        match table_at(label, "values") {
            Some(values) => is_no_run(values) || has_bad_grant(values, label),
            None => true,
        }
    }
}

/// Whether a label has bad values, or a grant whose ends aren't values in order.
pub fn has_bad_values(file: &Value) -> bool
    ensures { result ≡ has_bad_values (view file.now) }
{
    some_member_at::<BadLabel>(file, "label")
}
