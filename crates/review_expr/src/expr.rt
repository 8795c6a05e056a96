//! Expressions of submit requirements and of copy conditions.
ghost use Rattle.std.specs.Prelude.{◌≡◌, IfOk, IfErr};
ghost use Rattle.review_names.specs.Forms.{text_set};
ghost use Rattle.review_expr_terms.specs.declared.terms.{CopyTerm.CopyTerm, RequirementTerm.RequirementTerm};
ghost use Rattle.review_expr_spelling.specs.Words.{copy_reading, requirement_reading, IsDeep, IsPattern};
ghost use Rattle.review_expr.specs.Expressions.{IsParseFault};
ghost use Rattle.review_expr.specs.Exprs.{holds_for, labels_in, IsCopyOf, IsRequirementOf, NoWord};

use crate::expression::Expression;
use crate::fault::ParseFault;
use review_expr_judging::{ChangeFacts, VoteFacts};
use review_expr_terms::{CopyTerm, RequirementTerm};
use review_words::LabelName;
use std::alloc::{AllocError, Global};
use std::collections::BTreeSet;

/// An expression, by its kind.
#[derive(Drop)]
pub enum Expr {
    /// One of a submit requirement, about a change.
    Requirement(Expression<RequirementTerm>),
    /// A copy condition, about a vote.
    Copy(Expression<CopyTerm>),
}

/// What an expression is judged by, by the expression's kind.
#[derive(Drop)]
pub enum Facts {
    /// What a submit requirement is judged by.
    Change(ChangeFacts),
    /// What a copy condition is judged by.
    Vote(VoteFacts),
}

/// Why an expression was not judged.
#[derive(Clone, Copy, PartialEq, Eq)]
pub enum EvalFault {
    /// There was no memory for it. It may be tried again.
    Memory,
    /// The engine refuses a pattern. An expression keeps its patterns compiled, so this is never
    /// answered.
    Pattern,
}

/// The expression of a submit requirement that a text is. A fault is the first that applies, as
/// `ExprCode` orders them; Pattern only where a word has a pattern, all words before it being good:
/// the engine refused it for another cause than its syntax; Memory where there was none for the
/// expression.
pub fn parse_requirement(alloc: Global, text: &str) -> Result<Expr, ParseFault>
    ensures tree { IfOk result (IsRequirementOf text.now) }
    ensures fault { IfErr result (IsParseFault requirement_reading IsDeep IsPattern text.now) }
{
    match Expression::<RequirementTerm>::parse(alloc, text) {
        Ok(expression) => Ok(Expr::Requirement(expression)),
        Err(fault) => Err(fault),
    }
}

/// The copy condition that a text is. The faults are those of `parse_requirement`; Pattern is
/// never answered, for its words have no patterns.
pub fn parse_copy(alloc: Global, text: &str) -> Result<Expr, ParseFault>
    ensures tree { IfOk result (IsCopyOf text.now) }
    ensures fault { IfErr result (IsParseFault copy_reading NoWord NoWord text.now) }
{
    match Expression::<CopyTerm>::parse(alloc, text) {
        Ok(expression) => Ok(Expr::Copy(expression)),
        Err(fault) => Err(fault),
    }
}

/// The labels that the `label:` terms of an expression name, each once; a copy condition names
/// none. An error where there was no memory for them.
pub fn labels_of(alloc: Global, expr: &Expr) -> Result<BTreeSet<LabelName>, AllocError>
    ensures { IfOk result (λ s. s.keys ≡ text_set (labels_in expr.now)) }
{
    match expr {
        Expr::Requirement(expression) => review_expr_judging::labels_of(alloc, expression.node()),
        Expr::Copy(_) => Ok(BTreeSet::new(alloc)),
    }
}

/// Whether an expression holds. It is meant for facts of the expression's kind that have a range
/// for each label that the expression names: for facts of the other kind the answer is false, and
/// MAX and MIN of a label without a range are met by no vote. An error where there was no memory to
/// find out.
pub fn eval(alloc: Global, expr: &Expr, facts: &Facts) -> Result<bool, EvalFault>
    ensures holds { IfOk result (λ b. b ≡ holds_for facts.now expr.now) }
    ensures fault { IfErr result (λ e. e ≡ EvalFault.Memory) }
{
    let held = match (expr, facts) {
        (Expr::Requirement(expression), Facts::Change(change)) => {
            review_expr_judging::eval(alloc, expression.node(), change)
        }
        (Expr::Copy(expression), Facts::Vote(vote)) => {
            review_expr_judging::eval(alloc, expression.node(), vote)
        }
        _ => Ok(false),
    };
    match held {
        Ok(holds) => Ok(holds),
        Err(_) => Err(EvalFault::Memory),
    }
}
