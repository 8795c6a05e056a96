//! Terms that words spell.

use review_expr_terms::WordFault;
use std::alloc::Global;

/// A term that a word of a text is read as.
pub trait Spelled: Drop {
    ghost use Rattle.std.specs.Prelude.{ℕ, List, ◌≡◌, IfOk, IfErr};
    ghost use Rattle.review_expr_terms.specs.Words.{Reading, Good, IsWordFault};

    ghost reading: { List ℕ → Reading Self };

    ghost is_deep: { List ℕ → Type 0 };

    ghost is_pattern: { List ℕ → Type 0 };

    /// The term that a word without a minus is, or why it is none. A word with a pattern that
    /// nests deeper than the engine reads may be refused as a bad value whatever it is.
    fn read(alloc: Global, word: &str) -> Result<Self, WordFault>
        ensures term { IfOk result (λ t. reading word.now ≡ Good t) }
        ensures fault { IfErr result (IsWordFault (reading word.now) (is_deep word.now) (is_pattern word.now)) };
}
