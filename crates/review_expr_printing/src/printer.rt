//! From the tree to a text.
ghost use Rattle.std.specs.Prelude.{◌≡◌, ◌++◌, IfOk, OnOk, map, string_bytes};
ghost use Rattle.review_expr_terms.specs.{Grammar.trees, Views.view};
ghost use Rattle.review_expr_printing.specs.Printed.{joined_text, member_text, printed};

use crate::written::Written;
use review_expr::Expression;
use review_expr_terms::Node;
use std::alloc::{AllocError, Global};

/// Writes a tree as a member of another.
#[cycle(print)]
fn push_member<T: Written>(text: &mut String, node: &Node<T>) -> Result<(), AllocError>
    ensures { OnOk result (string_bytes text.new ≡ string_bytes text.old ++ member_text T.spelling (view node.now)) }
{
    match node {
        Node::Term(term) => term.push(text),
        Node::Not(member) => {
            text.push_str("NOT ")?;
            push_member(text, member)
        }
        Node::And(members) => {
            text.push_str("(")?;
            push_members(text, members, " AND ")?;
            text.push_str(")")
        }
        Node::Or(members) => {
            text.push_str("(")?;
            push_members(text, members, " OR ")?;
            text.push_str(")")
        }
    }
}

/// Writes members with a sign between them.
#[cycle(print)]
fn push_members<T: Written>(
    text: &mut String,
    members: &[Node<T>],
    sign: &str,
) -> Result<(), AllocError>
    ensures { OnOk result (string_bytes text.new ≡ string_bytes text.old ++ joined_text T.spelling sign.now (trees (map view members.now))) }
{
    for (index, member) in members.iter().enumerate() {
        if index > 0 {
            text.push_str(sign)?;
        }
        push_member(text, member)?;
    }
    Ok(())
}

/// The text of an expression, on one line: members joined by ` AND ` or ` OR `, Not as `NOT ` and
/// its member, parentheses only round a list that is a member. An error where there was no memory
/// for it.
pub fn print_expression<T: Written>(
    alloc: Global,
    expression: &Expression<T>,
) -> Result<String, AllocError>
    ensures { IfOk result (λ s. string_bytes s ≡ printed T.spelling (view expression.now.node)) }
{
    let mut text = String::new(alloc);
    match expression.node() {
        Node::And(members) => push_members(&mut text, members, " AND ")?,
        Node::Or(members) => push_members(&mut text, members, " OR ")?,
        member => push_member(&mut text, member)?,
    }
    Ok(text)
}
