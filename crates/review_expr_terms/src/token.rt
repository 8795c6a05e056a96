//! What the parser reads: words that were read, parentheses and signs.

/// A token of an expression whose terms are of type W.
#[derive(Drop)]
pub enum Token<W> {
    /// A term, in a box, so that a token is small whatever a term is.
    Word(Box<W>),
    /// An opening parenthesis.
    Open,
    /// A closing parenthesis.
    Close,
    /// A minus directly before a term or a parenthesis.
    Minus,
    /// The word NOT.
    Not,
    /// The word AND.
    And,
    /// The word OR.
    Or,
}
