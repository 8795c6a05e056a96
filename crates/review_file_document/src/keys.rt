//! Which keys a project file may have, and which it must have.
ghost use Rattle.std.specs.{List.list_any, Prelude.◌≡◌, Prelude.is_none};
ghost use Rattle.toml.specs.{Data.get, View.array_view, View.table_view, View.view};
ghost use Rattle.review_file_document.specs.Document.{is_no_array_of, is_no_table_of, members, values};
ghost use Rattle.review_file_document.specs.Keys.{are_no_ends, has_unknown_key, is_no_integer, is_no_pair, is_no_text, is_right, is_text_key, is_wrong, is_wrong_in_access, is_wrong_in_label, is_wrong_in_requirement, lacks_key, some_lacks};

use crate::document::{MemberTest, is_no_table_of, table_at};
use std::marker::PhantomData;
use toml::value::Array;
use toml::{Table, Value};

fn is_no_text(value: &Value) -> bool
    ensures { result ≡ is_no_text (view value.now) }
{
    value.as_str().is_none()
}

fn lists_no_text(array: &Array) -> bool
    ensures { result ≡ list_any is_no_text (values (array_view array.now)) }
{
    for value in array {
        if is_no_text(value) {
            return true;
        }
    }
    false
}

/// Whether a value is no list of texts.
fn is_no_list(value: &Value) -> bool
    ensures { result ≡ is_no_array_of is_no_text (view value.now) }
{
    match value.as_array() {
        Some(array) => lists_no_text(array),
        None => true,
    }
}

fn is_right(key: &str) -> bool
    ensures { result ≡ is_right key.now }
{
    key == "create" || key == "upload" || key == "submit" || key == "abandon"
}

/// No right of `access`, or a value that is no list of texts.
struct WrongInAccess;

impl MemberTest for WrongInAccess {
    ghost is_met = { is_wrong_in_access };

    fn is_met(key: &str, value: &Value) -> bool {
        !is_right(key) || is_no_list(value)
    }
}

/// A value that is no text.
struct NoText;

impl MemberTest for NoText {
    ghost is_met = { λ m. is_no_text m.1 };

    fn is_met(_key: &str, value: &Value) -> bool {
        is_no_text(value)
    }
}

fn is_no_integer(value: &Value) -> bool
    ensures { result ≡ is_no_integer (view value.now) }
{
    value.as_integer().is_none()
}

fn lists_no_integer(array: &Array) -> bool
    ensures { result ≡ list_any is_no_integer (values (array_view array.now)) }
{
    for value in array {
        if is_no_integer(value) {
            return true;
        }
    }
    false
}

/// Whether a value is no list of two whole numbers.
fn is_no_pair(value: &Value) -> bool
    ensures { result ≡ is_no_pair (view value.now) }
{
    match value.as_array() {
        Some(ends) => are_no_ends(ends),
        None => true,
    }
}

#[tactic(auto, using(crate::proofs::Tables::length_values))]
fn are_no_ends(ends: &Array) -> bool
    ensures { result ≡ are_no_ends (array_view ends.now) }
{
    ends.len() != 2 || lists_no_integer(ends)
}

/// A value that is no list of two whole numbers.
struct NoPair;

impl MemberTest for NoPair {
    ghost is_met = { λ m. is_no_pair m.1 };

    fn is_met(_key: &str, value: &Value) -> bool {
        is_no_pair(value)
    }
}

/// What a label may not have.
struct WrongInLabel;

impl MemberTest for WrongInLabel {
    ghost is_met = { is_wrong_in_label };

    fn is_met(key: &str, value: &Value) -> bool {
        match key {
            "copyCondition" => is_no_text(value),
            "values" => is_no_table_of::<NoText>(value),
            "grant" => is_no_table_of::<NoPair>(value),
            _ => true,
        }
    }
}

fn is_text_key(key: &str) -> bool
    ensures { result ≡ is_text_key key.now }
{
    key == "description" || key == "applicableIf" || key == "submittableIf" || key == "overrideIf"
}

/// What a submit requirement may not have.
struct WrongInRequirement;

impl MemberTest for WrongInRequirement {
    ghost is_met = { is_wrong_in_requirement };

    fn is_met(key: &str, value: &Value) -> bool {
        if is_text_key(key) {
            is_no_text(value)
        } else if key == "canOverrideInChildProjects" {
            value.as_bool().is_none()
        } else {
            true
        }
    }
}

/// A value that is no table, or one of which some member meets a test.
struct NoTableOf<T: MemberTest>(PhantomData<T>);

impl<T: MemberTest> MemberTest for NoTableOf<T> {
    ghost is_met = { λ m. is_no_table_of T.is_met m.1 };

    fn is_met(_key: &str, value: &Value) -> bool {
        is_no_table_of::<T>(value)
    }
}

/// What a file may not have.
struct Wrong;

impl MemberTest for Wrong {
    ghost is_met = { is_wrong };

    fn is_met(key: &str, value: &Value) -> bool {
        match key {
            "description" => is_no_text(value),
            "parent" => is_no_text(value),
            "access" => is_no_table_of::<WrongInAccess>(value),
            "label" => is_no_table_of::<NoTableOf<WrongInLabel>>(value),
            "submit-requirement" => is_no_table_of::<NoTableOf<WrongInRequirement>>(value),
            _ => true,
        }
    }
}

/// Whether a key of the file isn't known, or has a value of another type.
pub fn has_unknown_key(file: &Value) -> bool
    ensures { result ≡ has_unknown_key (view file.now) }
{
    is_no_table_of::<Wrong>(file)
}

fn some_lacks(section: &Table, key: &str) -> bool
    ensures { result ≡ list_any (λ m. is_none (get key.now m.1)) (members (table_view section.now)) }
{
    for (_, part) in section {
        if part.get(key).is_none() {
            return true;
        }
    }
    false
}

fn part_lacks(file: &Value, section: &str, key: &str) -> bool
    ensures { result ≡ some_lacks section.now key.now (view file.now) }
{
    match table_at(file, section) {
        Some(parts) => some_lacks(parts, key),
        None => false,
    }
}

/// Whether a label has no values, or a requirement no condition for submitting.
pub fn lacks_key(file: &Value) -> bool
    ensures { result ≡ lacks_key (view file.now) }
{
    part_lacks(file, "label", "values") || part_lacks(file, "submit-requirement", "submittableIf")
}
