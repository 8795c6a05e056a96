//! Expressions as flat lists.
ghost use Rattle.std.specs.List.{list_all, list_any};
ghost use Rattle.std.specs.Prelude.{◌≡◌, ◌≤◌, ◌<◌, ◌+◌, ◌++◌, ◌∷◌, [], Bool, List, map, length, take, IfOk, OnOk};
ghost use Rattle.review_expr_terms.specs.{Grammar.Tree, Grammar.trees, Views.view};
ghost use Rattle.review_expr_judging.specs.Holds.{holds};
ghost use Rattle.review_expr_judging.specs.Postfix.{AreStepsOfATree, AreStepsOf, Entry, entry, postfix, postfixes};
ghost use Rattle.review_expr_judging.specs.inner.Stack.{LeadsTo};

use crate::judge::Judged;
use review_expr_terms::Node;
use std::alloc::{AllocError, Global};

/// A step of an expression's flat list.
#[derive(Drop)]
pub enum Step<'e, W> {
    /// A term, whose truth value goes on the stack.
    Term(&'e W),
    /// The truth value on top turns over.
    Not,
    /// As many truth values go, and one comes: whether all of them hold.
    And(usize),
    /// As many truth values go, and one comes: whether one of them holds.
    Or(usize),
}

/// An expression as a flat list in postfix order: the lists of a node's members before the node.
/// Only `compile` makes one.
#[derive(Drop)]
pub struct Steps<'e, W> {
    list: Vec<Step<'e, W>>,
    ghost of_tree: { ∥ AreStepsOfATree list.items ∥₁ },
}

#[cycle(steps)]
fn push_steps<'e, W>(steps: &mut Vec<Step<'e, W>>, node: &'e Node<W>) -> Result<(), AllocError>
    ensures { OnOk result (map entry steps.new.items ≡ map entry steps.old.items ++ postfix (view node.now)) }
{
    match node {
        Node::Term(term) => steps.push(Step::Term(term))?,
        Node::Not(member) => {
            push_steps(steps, member)?;
            steps.push(Step::Not)?;
        }
        Node::And(members) => {
            push_all(steps, members)?;
            steps.push(Step::And(members.len()))?;
        }
        Node::Or(members) => {
            push_all(steps, members)?;
            steps.push(Step::Or(members.len()))?;
        }
    }
    Ok(())
}

#[cycle(steps)]
fn push_all<'e, W>(steps: &mut Vec<Step<'e, W>>, members: &'e [Node<W>]) -> Result<(), AllocError>
    ensures { OnOk result (map entry steps.new.items ≡ map entry steps.old.items ++ postfixes (trees (map view members.now))) }
{
    for member in members {
        push_steps(steps, member)?;
    }
    Ok(())
}

/// The flat list of an expression. An error where there was no memory for it.
pub fn compile<W>(alloc: Global, node: &Node<W>) -> Result<Steps<'_, W>, AllocError>
    ensures { IfOk result (λ s. AreStepsOf (view node.now) s.list.items) }
{
    let mut list = Vec::new(alloc);
    push_steps(&mut list, node)?;
    Ok(Steps { list })
}

fn are_true(values: &[bool]) -> bool
    ensures { result ≡ list_all (λ b. b) values.now }
{
    values.iter().all(|value| *value)
}

fn has_true(values: &[bool]) -> bool
    ensures { result ≡ list_any (λ b. b) values.now }
{
    values.iter().any(|value| *value)
}

/// A truth value that comes on the stack, and how many values it lies on.
#[derive(Clone, Copy)]
struct Pushed {
    under: usize,
    holds: bool,
}

/// What a step puts on a stack of truth values, and what is left under it.
fn push_of<F, W: Judged<F>>(
    alloc: Global,
    step: &Step<W>,
    facts: &F,
    stack: &[bool],
) -> Result<Pushed, AllocError>
    ensures leads { (rest : List (Entry W)) (b : Bool) → LeadsTo (W.is_held facts.now) stack.now (entry step.now ∷ rest) b → IfOk result (λ p. LeadsTo (W.is_held facts.now) (take p.under stack.now ++ p.holds ∷ []) rest b) }
    ensures within { IfOk result (λ p. p.under ≤ length stack.now) }
{
    let top = stack.len();
    match step {
        Step::Term(term) => Ok(Pushed {
            under: top,
            holds: term.is_met(alloc, facts)?,
        }),
        Step::Not => {
            let under = top.saturating_sub(1);
            let holds = !are_true(&stack[under..]);
            Ok(Pushed { under, holds })
        }
        Step::And(count) => {
            let under = top.saturating_sub(*count);
            let holds = are_true(&stack[under..]);
            Ok(Pushed { under, holds })
        }
        Step::Or(count) => {
            let under = top.saturating_sub(*count);
            let holds = has_true(&stack[under..]);
            Ok(Pushed { under, holds })
        }
    }
}

/// Takes a step: the first values of the room, as many as it is told, are the stack. It answers how many are afterwards.
fn take_step<F, W: Judged<F>>(
    alloc: Global,
    step: &Step<W>,
    facts: &F,
    room: &mut [bool],
    top: usize,
) -> Result<usize, AllocError>
    requires { top < length room.old }
    ensures leads { (rest : List (Entry W)) (b : Bool) → LeadsTo (W.is_held facts.now) (take top room.old) (entry step.now ∷ rest) b → IfOk result (λ t. LeadsTo (W.is_held facts.now) (take t room.new) rest b) }
    ensures within { IfOk result (λ t. t ≤ top + 1) }
    ensures room { length room.new ≡ length room.old }
{
    let Pushed { under, holds } = push_of(alloc, step, facts, &room[..top])?;
    room[under] = holds;
    Ok(under + 1)
}

/// Whether the expression of a list holds: all steps are taken, from front to back.
fn holds_in<F, W: Judged<F>>(
    alloc: Global,
    steps: &[Step<W>],
    facts: &F,
    room: &mut [bool],
) -> Result<bool, AllocError>
    requires { length steps.now ≤ length room.old }
    ensures { (t : Tree W) → AreStepsOf t steps.now → IfOk result (λ b. b ≡ holds (W.is_held facts.now) t) }
{
    let mut top = 0;
    for step in steps {
        top = take_step(alloc, step, facts, room, top)?;
    }
    match room.first() {
        Some(holds) => Ok(*holds),
        None => Ok(false),
    }
}

/// The most steps of a list whose truth values need no memory of the heap.
const FEW: usize = 64;

impl<'e, W> Steps<'e, W> {
    /// Whether the expression holds for facts: its list is run once from front to back, with a
    /// stack of truth values. An error where there was no memory to find out.
    pub fn eval<F>(&self, alloc: Global, facts: &F) -> Result<bool, AllocError>
    where
        W: Judged<F>,
        ensures { (t : Tree W) → AreStepsOf t self.now.list.items → IfOk result (λ b. b ≡ holds (W.is_held facts.now) t) }
    {
        let steps = self.list.as_slice();
        if steps.len() <= FEW {
            return holds_in(alloc, steps, facts, &mut [false; FEW]);
        }
        let mut room = vec![in alloc; false; steps.len()]?;
        holds_in(alloc, steps, facts, &mut room)
    }
}
