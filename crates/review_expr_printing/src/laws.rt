//! Laws of what is printed.
ghost use Rattle.std.specs.Prelude.{◌≡◌, ◌≤◌, ℕ, List, length};
ghost use Rattle.review_expr_terms.specs.Grammar.{Tree};
ghost use Rattle.review_expr_terms.specs.declared.terms.{CopyTerm.CopyTerm, RequirementTerm.RequirementTerm};
ghost use Rattle.review_expr_spelling.specs.Words.{copy_reading, requirement_reading};
ghost use Rattle.{review_expr.specs.Expressions.HasExpr, review_expr_printing.specs.Printed.printed};
ghost use Rattle.review_expr_printing.specs.Written.{AreOneWord, ReadAgain, copy_word, requirement_word};

use crate::written::Written;
use review_expr_terms::{CopyTerm, RequirementTerm};

/// Where the word of each term is read as that term and is one word, the text that the tree of a text is printed as has that tree too, if it
/// is no longer than a text may be.
pub fn print_tells<T: Written>()
    ensures { ReadAgain T.reading T.spelling → AreOneWord T.reading T.spelling → (text : List ℕ) (t : Tree T) → HasExpr T.reading text t → length (printed T.spelling t) ≤ 4096 → HasExpr T.reading (printed T.spelling t) t }
{}

/// The text that a submit requirement's expression is printed as is that expression again, where
/// it has at most 4,096 bytes.
pub fn requirement_print_tells()
    ensures { (text : List ℕ) (t : Tree RequirementTerm) → HasExpr requirement_reading text t → length (printed requirement_word t) ≤ 4096 → HasExpr requirement_reading (printed requirement_word t) t }
{
    print_tells::<RequirementTerm>();
}

/// The text that a copy condition is printed as is that condition again, where it has at most
/// 4,096 bytes.
pub fn copy_print_tells()
    ensures { (text : List ℕ) (t : Tree CopyTerm) → HasExpr copy_reading text t → length (printed copy_word t) ≤ 4096 → HasExpr copy_reading (printed copy_word t) t }
{
    print_tells::<CopyTerm>();
}
