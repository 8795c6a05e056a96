//! The tree of an expression.

/// An expression whose terms are of type W. As the parser gives it, And and Or have two or more
/// members.
#[derive(Drop)]
pub enum Node<W> {
    /// A term, in a box, so that a node is small whatever a term is.
    Term(Box<W>),
    /// What holds where its member doesn't.
    Not(Box<Node<W>>),
    /// What holds where all members do.
    And(Vec<Node<W>>),
    /// What holds where a member does.
    Or(Vec<Node<W>>),
}
