//! How submit requirements stand.
ghost use Rattle.std.specs.Option.{option_map_or};
ghost use Rattle.std.specs.Prelude.{◌≡◌, map, IfOk, true, false, option_copied};
ghost use Rattle.review_expr.specs.Exprs.{AreTermsOf, holds_for};
ghost use Rattle.review_core_rules.specs.{Facts.AreStanding, Facts.stands, Seen.seen, Status.status_of};
ghost use Rattle.review_core_tables.specs.Copies.{group_list};
ghost use Rattle.review_core_standing.specs.Grouped.{IsStatus, grouped};
ghost use Rattle.review_expr.specs.declared.expr.Facts.TheVariants as facts;

use crate::facts::facts_of;
use crate::grouped::GroupedChange;
use review_core_rules::ChangeRows;
use review_core_tables::GroupTables;
use review_expr::{Expr, TermList, Terms, compile};
use review_file::{ProjectFile, Requirement};
use review_words::{Listed, ShownRequirement, Status};
use std::alloc::{AllocError, Global};

/// Whether an expression's terms hold for a change.
fn are_met(alloc: Global, terms: &Terms, change: &GroupedChange) -> Result<bool, AllocError>
    ensures { (e : Expr) → AreTermsOf e terms.now → IfOk result (λ b. b ≡ holds_for (facts.Change (grouped change.now.facts.now change.now.groups.now)) e) }
{
    match terms.list() {
        TermList::Requirement(steps) => steps.eval(alloc, change),
        TermList::Copy(_) => Ok(false),
    }
}

/// Whether an expression holds for a change. It is compiled once, and its terms are run.
fn holds(alloc: Global, expr: &Expr, change: &GroupedChange) -> Result<bool, AllocError>
    ensures { IfOk result (λ b. b ≡ holds_for (facts.Change (grouped change.now.facts.now change.now.groups.now)) expr.now) }
{
    let terms = compile(alloc, expr)?;
    are_met(alloc, &terms, change)
}

fn holds_or(
    alloc: Global,
    expr: Option<&Expr>,
    change: &GroupedChange,
    otherwise: bool,
) -> Result<bool, AllocError>
    ensures { IfOk result (λ b. b ≡ option_map_or (λ e. holds_for (facts.Change (grouped change.now.facts.now change.now.groups.now)) e) (option_copied expr.entry) otherwise) }
{
    match expr {
        Some(expr) => holds(alloc, expr, change),
        None => Ok(otherwise),
    }
}

/// How a requirement stands for a change: NotApplicable where it doesn't apply, else Overridden where its override holds, else Satisfied
/// where it is met, else Unsatisfied. This is Gerrit's. An error is want of memory.
pub fn status_of(
    alloc: Global,
    requirement: &Requirement,
    change: &GroupedChange,
) -> Result<Status, AllocError>
    ensures { IfOk result (λ s. s ≡ status_of requirement.now (facts.Change (grouped change.now.facts.now change.now.groups.now))) }
{
    if !holds_or(alloc, requirement.applicable_if(), change, true)? {
        return Ok(Status::NotApplicable);
    }
    if holds_or(alloc, requirement.override_if(), change, false)? {
        return Ok(Status::Overridden);
    }
    if holds(alloc, requirement.submittable_if(), change)? {
        return Ok(Status::Satisfied);
    }
    Ok(Status::Unsatisfied)
}

/// How one submit requirement of a project's file stands for a change, where tables tell who is in which group. An error is want of
/// memory.
pub fn status(
    alloc: Global,
    rows: &ChangeRows,
    file: &ProjectFile,
    groups: &GroupTables,
    requirement: &Requirement,
) -> Result<Status, AllocError>
    ensures { IfOk result (IsStatus (record { file = file.now; groups = group_list groups.now }) (seen rows.now) requirement.now) }
{
    let facts = facts_of(alloc, file, rows)?;
    let change = GroupedChange {
        facts: &facts,
        groups,
    };
    let status = status_of(alloc, requirement, &change)?;
    Ok(status)
}

fn all_standing(
    alloc: Global,
    requirements: &[Requirement],
    change: &GroupedChange,
) -> Result<Vec<ShownRequirement>, AllocError>
    ensures { IfOk result (λ v. v.items ≡ map (stands (grouped change.now.facts.now change.now.groups.now)) requirements.now) }
{
    let mut shown = Vec::new(alloc);
    for requirement in requirements {
        let name = requirement.name().copy()?;
        let status = status_of(alloc, requirement, change)?;
        shown.push(ShownRequirement { name, status })?;
    }
    Ok(shown)
}

/// How each submit requirement of a project's file stands for a change, by name, where tables tell who is in which group. The facts of
/// the change are made once. An error is want of memory.
pub fn statuses(
    alloc: Global,
    rows: &ChangeRows,
    file: &ProjectFile,
    groups: &GroupTables,
) -> Result<Listed<ShownRequirement>, AllocError>
    ensures { IfOk result (AreStanding (record { file = file.now; groups = group_list groups.now }) (seen rows.now)) }
{
    let facts = facts_of(alloc, file, rows)?;
    let change = GroupedChange {
        facts: &facts,
        groups,
    };
    let shown = all_standing(alloc, file.requirements(), &change)?;
    Ok(Listed::from_vec(shown))
}
