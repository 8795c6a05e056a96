//! Why a word of an expression is not read.

use std::alloc::{AllocError, AllocFailed};

/// Why a word is no term.
#[derive(Clone, Copy, PartialEq, Eq)]
pub enum WordFault {
    /// It has no colon, an unknown key, a quote elsewhere than round the whole value, or a minus
    /// in front.
    BadTerm,
    /// Its key is known, and its value is none of the key's, or a pattern that nests deeper than
    /// the engine reads.
    BadValue,
    /// It is a comparison that 0 meets.
    Zero,
    /// Its pattern is one, and the engine refuses it all the same, as for its size.
    Engine,
    /// There was no memory for its term. It may be tried again.
    Memory,
}

impl From<AllocError> for WordFault {
    ghost use Rattle.std.specs.Prelude.{◌≡◌};
    ghost use Rattle.review_expr_terms.specs.declared.word.WordFault.TheVariants.{Memory};

    ghost from_gives = { λ _ e. e ≡ Memory };

    fn from(_error: AllocError) -> WordFault {
        WordFault::Memory
    }
}

impl<T: Drop> From<AllocFailed<T>> for WordFault {
    ghost use Rattle.std.specs.Prelude.{◌≡◌};
    ghost use Rattle.review_expr_terms.specs.declared.word.WordFault.TheVariants.{Memory};

    ghost from_gives = { λ _ e. e ≡ Memory };

    fn from(_error: AllocFailed<T>) -> WordFault {
        WordFault::Memory
    }
}
