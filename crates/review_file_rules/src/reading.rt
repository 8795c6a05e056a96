//! Laws of project files.
ghost use Rattle.std.specs.Prelude.{◌≡◌, ◌⊎◌, ◌≤◌, ℕ, List};
ghost use Rattle.review_words.specs.declared.faults.ExprFault.{ExprFault};
ghost use Rattle.review_words.specs.declared.faults.FileFault.{FileFault, TheVariants.Expr as Faulty};
ghost use Rattle.review_expr.specs.declared.expr.Expr.{Expr};
ghost use Rattle.review_file_rules.specs.Patterns.{HasDeepPattern, HasPattern};
ghost use Rattle.review_file_rules.specs.Reading.{IsBadValue, IsFileFault, IsRead, IsReadFault};
ghost use Rattle.review_file_rules.specs.{Rights.covers, Trees.file_trees, View.FileView};
ghost use Rattle.review_file_rules.specs.declared.fault.ReadFault.TheVariants.{Pattern};

use review_expr::one_expression;
use review_expr_terms::{CopyTerm, RequirementTerm};

/// A text that is refused because the engine refuses a pattern has one.
pub fn refused_has_pattern()
    ensures { (text : List ℕ) → IsReadFault text Pattern → HasPattern text }
{}

/// A text that spells a file has no fault.
pub fn never_both()
    ensures { (text : List ℕ) (f : FileView Expr) (fault : FileFault) → IsRead text f → IsFileFault text fault → ⊥ }
{}

/// A text has at most one fault, unless a pattern in it nests deeper than the engine reads: of two
/// different faults one is then a bad value of an expression.
pub fn one_fault()
    ensures { (text : List ℕ) (a b : FileFault) → IsFileFault text a → IsFileFault text b → (a ≡ b) ⊎ ((IsBadValue a ⊎ IsBadValue b) × HasDeepPattern text) }
{}

/// The place of an expression's fault is at most 4,096.
pub fn place_within()
    ensures { (text : List ℕ) (fault : ExprFault) → IsFileFault text (Faulty fault) → fault.place ≤ 4096 }
{}

/// A text spells at most one file: its expressions have the same trees, and all else is equal. So
/// what one of two such files covers the other covers, and what covers one covers the other.
pub fn one_file()
    ensures trees { (text : List ℕ) (f g : FileView Expr) → IsRead text f → IsRead text g → file_trees f ≡ file_trees g }
    ensures covers { (text : List ℕ) (f g : FileView Expr) → IsRead text f → IsRead text g → (h : FileView Expr) → (covers f h ≡ covers g h) × (covers h f ≡ covers h g) }
{
    one_expression::<CopyTerm>();
    one_expression::<RequirementTerm>();
}
