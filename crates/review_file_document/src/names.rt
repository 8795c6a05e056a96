//! The names in a project file.
ghost use Rattle.std.specs.List.{list_any};
ghost use Rattle.std.specs.Prelude.{◌≡◌, IfOk, Some, None, if◌then◌else◌, not, codes};
ghost use Rattle.{toml.specs.View.array_view, toml.specs.View.view, review_names.specs.Names.is_word};
ghost use Rattle.review_file_document.specs.Document.{members_at, text_of, values};
ghost use Rattle.review_file_document.specs.Names.{has_bad_group, has_bad_name, has_bad_parent, lists_bad_group};

use crate::document::{MemberTest, some_member_at, text_at, text_of};
use review_names::names::OfGroup;
use review_names::places::{OfLabel, OfProject};
use review_names::{Bad, Form, Name};
use std::alloc::{AllocError, Global};
use std::marker::PhantomData;
use toml::Value;
use toml::value::Array;

/// The name of a form that a text is, or none. An error where there was no memory for it.
pub fn name_of<F: Form>(alloc: Global, text: &str) -> Result<Option<Name<F>>, AllocError>
    ensures { IfOk result (λ name. name ≡ (if F.is_form text.now then Some text.now else None)) }
{
    match Name::read(alloc, text) {
        Ok(name) => Ok(Some(name)),
        Err(Bad::Form) => Ok(None),
        Err(Bad::Memory) => Err(AllocError),
    }
}

/// A key that is no name of a form.
struct NoName<F: Form>(PhantomData<F>);

impl<F: Form> MemberTest for NoName<F> {
    ghost is_met = { λ m. not (F.is_form m.0) };

    fn is_met(key: &str, _value: &Value) -> bool {
        !F::is_met(key)
    }
}

fn some_bad_group(groups: &Array) -> bool
    ensures { result ≡ list_any (λ v. not (is_word (text_of v))) (values (array_view groups.now)) }
{
    for group in groups {
        if !OfGroup::is_met(text_of(group)) {
            return true;
        }
    }
    false
}

/// A list with a text that is no name of a group.
struct BadGroups;

impl MemberTest for BadGroups {
    ghost is_met = { λ m. lists_bad_group m.1 };

    fn is_met(_key: &str, groups: &Value) -> bool {
        match groups.as_array() {
            Some(groups) => some_bad_group(groups),
            None => false,
        }
    }
}

/// A label that grants to what is no name of a group.
struct BadGrant;

impl MemberTest for BadGrant {
    ghost is_met = { λ m. has_bad_group (members_at (codes "grant") m.1) };

    fn is_met(_key: &str, label: &Value) -> bool {
        some_member_at::<NoName<OfGroup>>(label, "grant")
    }
}

fn has_bad_parent(file: &Value) -> bool
    ensures { result ≡ has_bad_parent (view file.now) }
{
    match text_at(file, "parent") {
        Some(text) => !OfProject::is_met(text),
        None => false,
    }
}

/// Whether the name of a label, a requirement, a group or the parent is none.
pub fn has_bad_name(file: &Value) -> bool
    ensures { result ≡ has_bad_name (view file.now) }
{
    some_member_at::<NoName<OfLabel>>(file, "label")
        || some_member_at::<NoName<OfLabel>>(file, "submit-requirement")
        || some_member_at::<BadGroups>(file, "access")
        || some_member_at::<BadGrant>(file, "label")
        || has_bad_parent(file)
}
