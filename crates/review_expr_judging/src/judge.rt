//! Whether expressions hold.
ghost use Rattle.std.specs.List.{list_any};
ghost use Rattle.std.specs.Prelude.{◌≡◌, ◌==◌, ℕ, ℤ, Bool, IfOk, IfErr, Some, map, count_by};
ghost use Rattle.{std.specs.Str.bytes_eq, review_names.specs.Forms.components};
ghost use Rattle.review_expr_terms.specs.{Grammar.trees, Views.view};
ghost use Rattle.review_expr_judging.specs.Holds.{all_hold, any_holds, compares, copy_holds, holds, is_count, is_counted, is_value, is_voter, kind_matches, label_holds, meets, requirement_holds};

use review_expr_terms::Node;
use std::alloc::{AllocError, Global};

/// A term that facts of type F judge.
pub trait Judged<F> {
    ghost is_held: { F → Self → Bool };

    /// Whether the term holds. An error where there was no memory to find out.
    fn is_met(&self, alloc: Global, facts: &F) -> Result<bool, AllocError>
        ensures { IfOk result (λ b. b ≡ is_held facts.now self.now) };
}

/// Whether an expression holds for facts. An error where there was no memory to find out.
#[cycle(eval)]
pub fn eval<F, W: Judged<F>>(alloc: Global, node: &Node<W>, facts: &F) -> Result<bool, AllocError>
    ensures { IfOk result (λ b. b ≡ holds (W.is_held facts.now) (view node.now)) }
{
    match node {
        Node::Term(term) => term.is_met(alloc, facts),
        Node::Not(member) => {
            let holds = eval(alloc, member, facts)?;
            Ok(!holds)
        }
        Node::And(members) => all_hold(alloc, members, facts),
        Node::Or(members) => any_holds(alloc, members, facts),
    }
}

#[cycle(eval)]
fn all_hold<F, W: Judged<F>>(
    alloc: Global,
    members: &[Node<W>],
    facts: &F,
) -> Result<bool, AllocError>
    ensures { IfOk result (λ b. b ≡ all_hold (W.is_held facts.now) (trees (map view members.now))) }
{
    for member in members {
        if !eval(alloc, member, facts)? {
            return Ok(false);
        }
    }
    Ok(true)
}

#[cycle(eval)]
fn any_holds<F, W: Judged<F>>(
    alloc: Global,
    members: &[Node<W>],
    facts: &F,
) -> Result<bool, AllocError>
    ensures { IfOk result (λ b. b ≡ any_holds (W.is_held facts.now) (trees (map view members.now))) }
{
    for member in members {
        if eval(alloc, member, facts)? {
            return Ok(true);
        }
    }
    Ok(false)
}
