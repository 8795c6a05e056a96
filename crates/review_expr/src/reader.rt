//! From a text to the tree.
ghost use Rattle.std.specs.Prelude.{◌≡◌, IfOk, IfErr};
ghost use Rattle.review_expr_terms.specs.Views.{view};
ghost use Rattle.review_expr.specs.Expressions.{HasExpr, IsParseFault};
ghost use Rattle.review_expr.specs.inner.Words.{cut_fault, shape_fault};

use crate::expression::Expression;
use crate::fault::ParseFault;
use crate::spelled::Spelled;
use crate::words::tokens_of;
use review_expr_terms::{CutFault, Node, ShapeFault, cut};
use review_words::ExprCode;
use std::alloc::Global;

fn cut_fault(fault: CutFault) -> ParseFault
    ensures { result ≡ cut_fault fault }
{
    match fault {
        CutFault::TooLong => ParseFault::of_text(ExprCode::TooLong),
        CutFault::Empty => ParseFault::of_text(ExprCode::Empty),
        CutFault::Unbalanced => ParseFault::of_text(ExprCode::Unbalanced),
        CutFault::Memory => ParseFault::Memory,
    }
}

fn shape_fault(fault: ShapeFault) -> ParseFault
    ensures { result ≡ shape_fault fault }
{
    match fault {
        ShapeFault::BadTerm => ParseFault::of_text(ExprCode::BadTerm),
        ShapeFault::TooDeep => ParseFault::of_text(ExprCode::TooDeep),
        ShapeFault::Mixed => ParseFault::of_text(ExprCode::Mixed),
        ShapeFault::Memory => ParseFault::Memory,
    }
}

/// The tree of a text, or the first fault that applies.
pub(crate) fn read_tree<T: Spelled>(alloc: Global, text: &str) -> Result<Node<T>, ParseFault>
    ensures tree { IfOk result (λ node. HasExpr T.reading text.now (view node)) }
    ensures fault { IfErr result (IsParseFault T.reading T.is_deep T.is_pattern text.now) }
{
    let pieces = match cut(alloc, text.as_bytes()) {
        Ok(pieces) => pieces,
        Err(fault) => return Err(cut_fault(fault)),
    };
    let tokens = match tokens_of(alloc, text, &pieces) {
        Ok(tokens) => tokens,
        Err(fault) => return Err(fault),
    };
    match review_expr_terms::parse(alloc, tokens) {
        Ok(node) => Ok(node),
        Err(fault) => Err(shape_fault(fault)),
    }
}

impl<T: Spelled> Expression<T> {
    /// The expression that a text is. The text is cut into words and parentheses, the words are read
    /// as operators and terms, and these make a tree by the grammar
    ///
    /// ```text
    /// expr    = unary / unary 1*(["AND"] unary) / unary 1*("OR" unary)
    /// unary   = "NOT" unary / "-" primary / primary
    /// primary = term / "(" expr ")"
    /// ```
    ///
    /// where a minus stands directly before its term or parenthesis. The language is this project's
    /// own, also where Gerrit reads the same words otherwise.
    ///
    /// Text: the text is no expression; the fault is the first that applies, as `ExprCode` orders
    /// them. Pattern: the engine refuses a pattern of a word, all words before it being good. Memory:
    /// there was none for the expression.
    pub fn parse(alloc: Global, text: &str) -> Result<Expression<T>, ParseFault>
        ensures tree { IfOk result (λ e. HasExpr T.reading text.now (view e.node)) }
        ensures fault { IfErr result (IsParseFault T.reading T.is_deep T.is_pattern text.now) }
    {
        match read_tree(alloc, text) {
            Ok(node) => Ok(Expression::new(node)),
            Err(fault) => Err(fault),
        }
    }
}
