//! Expressions that some text is.
ghost use Rattle.std.specs.Prelude.{◌≡◌};
ghost use Rattle.review_expr.specs.Expressions.{IsTreeOfText};

use crate::spelled::Spelled;
use review_expr_terms::Node;

/// An expression over terms of type T: the tree of some text. So it is at most 32 deep, each And
/// and Or in it has two members or more, and each of its terms is spelled by a word. Contracts
/// name its tree `view e.node`.
#[derive(Drop)]
pub struct Expression<T: Spelled> {
    node: Node<T>,
    ghost of_text: { ∥ IsTreeOfText T.reading node ∥₁ },
}

impl<T: Spelled> Expression<T> {
    /// The expression of a tree that some text has.
    pub(crate) fn new(node: Node<T>) -> Expression<T>
        requires { IsTreeOfText T.reading node }
        ensures { result.node ≡ node }
    {
        Expression { node }
    }

    /// The tree of the expression, a list's members in their order.
    pub fn node(&self) -> &Node<T>
        ensures { result.now ≡ self.now.node }
    {
        &self.node
    }
}
