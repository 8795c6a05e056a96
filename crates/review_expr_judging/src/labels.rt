//! The labels that an expression names.
ghost use Rattle.std.specs.Prelude.{◌≡◌, ◌++◌, IfOk, OnOk, map};
ghost use Rattle.review_names.specs.Forms.{text_set};
ghost use Rattle.review_expr_terms.specs.{Grammar.trees, Views.view};
ghost use Rattle.review_expr_judging.specs.Labels.{all_labels, label_in, labels};

use review_expr_terms::{Node, RequirementTerm};
use review_names::LabelName;
use std::alloc::{AllocError, Global};
use std::collections::BTreeSet;

fn push_label<'e>(
    found: &mut Vec<&'e LabelName>,
    term: &'e RequirementTerm,
) -> Result<(), AllocError>
    ensures { OnOk result (map (λ l. l.now) found.new.items ≡ map (λ l. l.now) found.old.items ++ label_in term.now) }
{
    if let RequirementTerm::Label(term) = term {
        found.push(&term.label)?;
    }
    Ok(())
}

#[cycle(labels)]
fn push_labels<'e>(
    found: &mut Vec<&'e LabelName>,
    node: &'e Node<RequirementTerm>,
) -> Result<(), AllocError>
    ensures { OnOk result (map (λ l. l.now) found.new.items ≡ map (λ l. l.now) found.old.items ++ labels (view node.now)) }
{
    match node {
        Node::Term(term) => push_label(found, term),
        Node::Not(member) => push_labels(found, member),
        Node::And(members) => push_all(found, members),
        Node::Or(members) => push_all(found, members),
    }
}

#[cycle(labels)]
fn push_all<'e>(
    found: &mut Vec<&'e LabelName>,
    members: &'e [Node<RequirementTerm>],
) -> Result<(), AllocError>
    ensures { OnOk result (map (λ l. l.now) found.new.items ≡ map (λ l. l.now) found.old.items ++ all_labels (trees (map view members.now))) }
{
    for member in members {
        push_labels(found, member)?;
    }
    Ok(())
}

/// The set of the names in a list.
fn set_of(alloc: Global, names: Vec<&LabelName>) -> Result<BTreeSet<LabelName>, AllocError>
    ensures { IfOk result (λ s. s.keys ≡ text_set (map (λ l. l.now) names.entry.items)) }
{
    let mut set = BTreeSet::new(alloc);
    let mut rest = names;
    while let Some(name) = rest.pop() {
        set.insert(name.copy()?)?;
    }
    Ok(set)
}

/// The labels that the `label:` terms of a requirement's expression name, each once. An error where
/// there was no memory for them.
pub fn labels_of(
    alloc: Global,
    node: &Node<RequirementTerm>,
) -> Result<BTreeSet<LabelName>, AllocError>
    ensures { IfOk result (λ s. s.keys ≡ text_set (labels (view node.now))) }
{
    let mut found = Vec::new(alloc);
    push_labels(&mut found, node)?;
    set_of(alloc, found)
}
