//! Terms that are written as words.

use review_expr::Spelled;
use std::alloc::AllocError;

/// A term that is written as a word.
pub trait Written: Spelled {
    ghost use Rattle.std.specs.Prelude.{◌≡◌, ◌++◌, ℕ, List, OnErr, OnOk, string_bytes};

    ghost spelling: { Self → List ℕ };

    /// Writes the term at the end of a text. An error where there was no memory for it; the text is
    /// as it was then.
    fn push(&self, text: &mut String) -> Result<(), AllocError>
        ensures text { OnOk result (string_bytes text.new ≡ string_bytes text.old ++ spelling self.now) }
        ensures kept { OnErr result (string_bytes text.new ≡ string_bytes text.old) };
}
