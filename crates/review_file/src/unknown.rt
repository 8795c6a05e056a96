//! Labels that a file's requirements name and the file hasn't.
ghost use Rattle.std.specs.{List.list_any, Option.option_map_or};
ghost use Rattle.std.specs.Prelude.{◌≡◌, IfOk, Bool, false, not, option_copied};
ghost use Rattle.std.specs.Str.{bytes_eq};
ghost use Rattle.review_file_rules.specs.Expressions.{has_unknown_label, names_other, requires_other};

use crate::file::{Content, Label, Requirement};
use review_expr::{Expr, labels_of};
use review_words::LabelName;
use std::alloc::{AllocError, Global};

fn has_label(labels: &[Label], name: &LabelName) -> bool
    ensures { result ≡ list_any (λ l. bytes_eq l.name name.now) labels.now }
{
    labels.iter().any(|label| *label.name() == *name)
}

/// Whether an expression names another label than these.
fn names_other(alloc: Global, labels: &[Label], expression: &Expr) -> Result<bool, AllocError>
    ensures { IfOk result (λ b. b ≡ names_other labels.now expression.now) }
{
    let names = labels_of(alloc, expression)?;
    for name in &names {
        if !has_label(labels, name) {
            return Ok(true);
        }
    }
    Ok(false)
}

fn may_name_other(
    alloc: Global,
    labels: &[Label],
    expression: Option<&Expr>,
) -> Result<bool, AllocError>
    ensures { IfOk result (λ b. b ≡ option_map_or (names_other labels.now) (option_copied expression.entry) false) }
{
    match expression {
        Some(expression) => names_other(alloc, labels, expression),
        None => Ok(false),
    }
}

fn requires_other(
    alloc: Global,
    labels: &[Label],
    requirement: &Requirement,
) -> Result<bool, AllocError>
    ensures { IfOk result (λ b. b ≡ requires_other labels.now requirement.now) }
{
    let applicable = may_name_other(alloc, labels, requirement.applicable_if())?;
    let submittable = names_other(alloc, labels, requirement.submittable_if())?;
    let overriding = may_name_other(alloc, labels, requirement.override_if())?;
    Ok(applicable || submittable || overriding)
}

/// Whether one of these requirements names another label than these. An error where there was no
/// memory to find out.
pub fn some_requires_other(
    alloc: Global,
    labels: &[Label],
    requirements: &[Requirement],
) -> Result<bool, AllocError>
    ensures { IfOk result (λ b. b ≡ list_any (requires_other labels.now) requirements.now) }
{
    for requirement in requirements {
        if requires_other(alloc, labels, requirement)? {
            return Ok(true);
        }
    }
    Ok(false)
}

/// Whether a file without a parent has a requirement that names a label which the file hasn't. An error where there was no memory to
/// find out.
pub(crate) fn has_unknown_label(alloc: Global, file: &Content) -> Result<bool, AllocError>
    ensures { IfOk result (λ b. b ≡ has_unknown_label file.now) }
{
    if file.parent.is_some() {
        return Ok(false);
    }
    some_requires_other(alloc, &file.labels, &file.requirements)
}
