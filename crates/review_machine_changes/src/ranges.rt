//! Values on labels.
ghost use Rattle.std.specs.{List.list_all, List.list_any, Ordering.int_eq};
ghost use Rattle.std.specs.Prelude.{◌≡◌, Some, ◌&&◌, IfOk, is_some};
ghost use Rattle.review_core_rules.specs.Change.{label_in};
ghost use Rattle.review_machine_rows.specs.{Answer.is_in_range, Answer.is_value_of, Desks.facts_by, Desks.in_rows};
ghost use Rattle.review_machine_changes.specs.inner.Done.{reaches};

use crate::facts::is_in;
use review_file::{Grant, Label, ProjectFile, grants_of};
use review_machine_rows::Rows;
use review_words::{AccountNo, Given};
use std::alloc::AllocError;

/// Whether a file has each of the labels that values are given on.
pub fn has_labels(file: &ProjectFile, given: &[Given]) -> bool
    ensures { result ≡ list_all (λ x. is_some (label_in file.now x.label)) given.now }
{
    given.iter().all(|one| file.label(&one.label).is_some())
}

/// Whether each value that is given is one of its label's.
pub fn has_values(file: &ProjectFile, given: &[Given]) -> bool
    ensures { result ≡ list_all (is_value_of file.now) given.now }
{
    given.iter().all(|one| has_value(file, one))
}

fn has_value(file: &ProjectFile, given: &Given) -> bool
    ensures { result ≡ is_value_of file.now given.now }
{
    match file.label(&given.label) {
        Some(label) => is_value(label, given.value),
        None => false,
    }
}

fn is_value(label: &Label, value: i8) -> bool
    ensures { result ≡ list_any (λ v. int_eq v.0 value) label.now.values }
{
    label.values().iter().any(|one| one.value() == value)
}

/// Whether each value that is given lies in the range of an account, as far as rows tell its groups.
pub fn are_in_range(
    rows: &Rows,
    file: &ProjectFile,
    account: AccountNo,
    given: &[Given],
) -> Result<bool, AllocError>
    ensures { IfOk result (λ b. b ≡ list_all (is_in_range (facts_by rows.now (Some file.now)) file.now account) given.now) }
{
    for one in given {
        if !is_in_range(rows, file, account, one)? {
            return Ok(false);
        }
    }
    Ok(true)
}

fn is_in_range(
    rows: &Rows,
    file: &ProjectFile,
    account: AccountNo,
    given: &Given,
) -> Result<bool, AllocError>
    ensures { IfOk result (λ b. b ≡ is_in_range (facts_by rows.now (Some file.now)) file.now account given.now) }
{
    if given.value == 0 {
        return Ok(true);
    }
    is_granted(rows, account, grants_of(file, &given.label), given.value)
}

/// Whether a value below 0 isn't below a grant's least value, and another one not above its greatest.
fn reaches(value: i8, grant: &Grant) -> bool
    ensures { result ≡ reaches value grant.now }
{
    if value < 0 {
        grant.least <= value
    } else {
        value <= grant.greatest
    }
}

/// Whether a grant to a group of an account reaches to a value.
fn is_granted(
    rows: &Rows,
    account: AccountNo,
    grants: &[Grant],
    value: i8,
) -> Result<bool, AllocError>
    ensures { IfOk result (λ b. b ≡ list_any (λ g. reaches value g && in_rows rows.now account g.group) grants.now) }
{
    for grant in grants {
        if reaches(value, grant) && is_in(rows, account, &grant.group)? {
            return Ok(true);
        }
    }
    Ok(false)
}
