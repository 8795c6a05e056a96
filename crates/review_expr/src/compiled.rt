//! Expressions that are compiled to flat lists.
ghost use Rattle.std.specs.Prelude.{◌≡◌, IfOk, IfErr};
ghost use Rattle.review_expr.specs.Exprs.{AreTermsOf, holds_for};
ghost use Rattle.review_expr.specs.declared.expr.{EvalFault.EvalFault, Expr.Expr};

use crate::expr::{EvalFault, Expr, Facts};
use review_expr_judging::Steps;
use review_expr_terms::{CopyTerm, RequirementTerm};
use std::alloc::{AllocError, Global};

/// A flat list, by the kind of its expression.
#[derive(Drop)]
pub enum TermList<'e> {
    /// Of a submit requirement.
    Requirement(Steps<'e, RequirementTerm>),
    /// Of a copy condition.
    Copy(Steps<'e, CopyTerm>),
}

/// An expression as a flat list of its terms and operators. [`compile`] makes it, and nothing else
/// does.
#[derive(Drop)]
pub struct Terms<'e> {
    list: TermList<'e>,
}

/// The flat list of an expression: its tree in postfix order, the lists of a node's members before
/// the node. It takes time and memory in proportion to the expression's terms and operators. An
/// error where there was no memory for it.
pub fn compile(alloc: Global, expr: &Expr) -> Result<Terms<'_>, AllocError>
    ensures { IfOk result (AreTermsOf expr.now) }
{
    let list = match expr {
        Expr::Requirement(expression) => {
            TermList::Requirement(review_expr_judging::compile(alloc, expression.node())?)
        }
        Expr::Copy(expression) => {
            TermList::Copy(review_expr_judging::compile(alloc, expression.node())?)
        }
    };
    Ok(Terms { list })
}

impl<'e> Terms<'e> {
    /// The list, to be judged by facts of another form.
    pub fn list(&self) -> &TermList<'e>
        ensures { result.now ≡ self.now.list }
    {
        &self.list
    }

    /// Whether the expression holds, as `eval` answers: the list is run once from front to back,
    /// with a stack of truth values and without recursion. An error where there was no memory to
    /// find out.
    pub fn eval(&self, alloc: Global, facts: &Facts) -> Result<bool, EvalFault>
        ensures holds { (e : Expr) → AreTermsOf e self.now → IfOk result (λ b. b ≡ holds_for facts.now e) }
        ensures fault { IfErr result (λ e. e ≡ EvalFault.Memory) }
    {
        let held = match (&self.list, facts) {
            (TermList::Requirement(steps), Facts::Change(change)) => steps.eval(alloc, change),
            (TermList::Copy(steps), Facts::Vote(vote)) => steps.eval(alloc, vote),
            _ => Ok(false),
        };
        match held {
            Ok(holds) => Ok(holds),
            Err(_) => Err(EvalFault::Memory),
        }
    }
}
