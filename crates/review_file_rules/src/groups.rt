//! The groups that an expression names.
ghost use Rattle.std.specs.Prelude.{◌≡◌, ◌++◌, OnOk, map};
ghost use Rattle.review_expr_terms.specs.{Grammar.trees, Views.view};
ghost use Rattle.review_file_rules.specs.Named.{all_named, copy_group, groups_in, named, requirement_group, voters_group};

use review_expr::Expr;
use review_expr_terms::{CopyTerm, Node, RequirementTerm, Voters};
use review_names::GroupName;
use std::alloc::AllocError;

/// A term that may name a group.
trait NamesGroup {
    ghost use Rattle.std.specs.Prelude.{List, ℕ};

    ghost group: { Self → List (List ℕ) };

    /// Adds the group that the term names, if any, at the end.
    fn push_group<'e>(&'e self, found: &mut Vec<&'e GroupName>) -> Result<(), AllocError>
        ensures { OnOk result (map (λ g. g.now) found.new.items ≡ map (λ g. g.now) found.old.items ++ group self.now) };
}

impl NamesGroup for CopyTerm {
    ghost group = { copy_group };

    fn push_group<'e>(&'e self, found: &mut Vec<&'e GroupName>) -> Result<(), AllocError> {
        match self {
            CopyTerm::ApproverIn(group) => found.push(group)?,
            CopyTerm::UploaderIn(group) => found.push(group)?,
            _ => {}
        }
        Ok(())
    }
}

fn push_voters<'e>(found: &mut Vec<&'e GroupName>, voters: &'e Voters) -> Result<(), AllocError>
    ensures { OnOk result (map (λ g. g.now) found.new.items ≡ map (λ g. g.now) found.old.items ++ voters_group voters.now) }
{
    if let Voters::Group(group) = voters {
        found.push(group)?;
    }
    Ok(())
}

impl NamesGroup for RequirementTerm {
    ghost group = { requirement_group };

    fn push_group<'e>(&'e self, found: &mut Vec<&'e GroupName>) -> Result<(), AllocError> {
        match self {
            RequirementTerm::Label(term) => push_voters(found, &term.voters)?,
            RequirementTerm::UploaderIn(group) => found.push(group)?,
            RequirementTerm::OwnerIn(group) => found.push(group)?,
            _ => {}
        }
        Ok(())
    }
}

#[cycle(groups)]
fn push_named<'e, T: NamesGroup>(
    found: &mut Vec<&'e GroupName>,
    node: &'e Node<T>,
) -> Result<(), AllocError>
    ensures { OnOk result (map (λ g. g.now) found.new.items ≡ map (λ g. g.now) found.old.items ++ named T.group (view node.now)) }
{
    match node {
        Node::Term(term) => term.push_group(found),
        Node::Not(member) => push_named(found, member),
        Node::And(members) => push_all(found, members),
        Node::Or(members) => push_all(found, members),
    }
}

#[cycle(groups)]
fn push_all<'e, T: NamesGroup>(
    found: &mut Vec<&'e GroupName>,
    members: &'e [Node<T>],
) -> Result<(), AllocError>
    ensures { OnOk result (map (λ g. g.now) found.new.items ≡ map (λ g. g.now) found.old.items ++ all_named T.group (trees (map view members.now))) }
{
    for member in members {
        push_named(found, member)?;
    }
    Ok(())
}

/// Adds the groups that an expression names at the end, in the order in which it names them. An error is want of memory, and may leave a
/// part of them added.
pub fn push_groups<'e>(found: &mut Vec<&'e GroupName>, expr: &'e Expr) -> Result<(), AllocError>
    ensures { OnOk result (map (λ g. g.now) found.new.items ≡ map (λ g. g.now) found.old.items ++ groups_in expr.now) }
{
    match expr {
        Expr::Requirement(expression) => push_named(found, expression.node()),
        Expr::Copy(expression) => push_named(found, expression.node()),
    }
}
