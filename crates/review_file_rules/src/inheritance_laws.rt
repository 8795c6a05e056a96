//! Laws of effective files, as contracts of calls that do nothing.
ghost use Rattle.std.specs.Option.{option_or};
ghost use Rattle.std.specs.Prelude.{◌≡◌, ℕ, List, true, false, find};
ghost use Rattle.{std.specs.Str.bytes_eq, review_expr.specs.declared.expr.Expr.Expr};
ghost use Rattle.review_file_rules.specs.Expressions.{names_unknown_label};
ghost use Rattle.review_file_rules.specs.Inherited.{IsEffective, inherit, inherits_unknown_label};
ghost use Rattle.review_file_rules.specs.{Rights.covers, Sound.HasNamesInOrder, Sound.IsSoundFile, Trees.file_trees};
ghost use Rattle.review_file_rules.specs.View.{FileView};

use crate::reading::one_file;

/// The label of a name is the own one, or else the parent's. An effective file is sound where its parent's and the own file are. Where a parent's
/// new file covers its old one, so do the effective files of a child: what a file keeps of labels and values, it keeps for all that go on from it.
pub fn children_keep_labels()
    ensures label { (parent own : FileView Expr) → HasNamesInOrder parent → HasNamesInOrder own → (q : List ℕ) →
        find (λ l. bytes_eq l.name q) (inherit parent own).labels ≡ option_or (find (λ l. bytes_eq l.name q) own.labels) (find (λ l. bytes_eq l.name q) parent.labels) }
    ensures sound { (parent own : FileView Expr) → IsSoundFile parent → IsSoundFile own → IsSoundFile (inherit parent own) }
    ensures covers { (old new own : FileView Expr) → HasNamesInOrder old → HasNamesInOrder new → HasNamesInOrder own → covers old new ≡ true → covers (inherit old own) (inherit new own) ≡ true }
{}

/// The requirements of an effective file name its labels alone, where those of the parent's file do and the own ones name labels of the effective
/// file. The own ones, those too that don't count, go on to do so where the parent's new file covers its old one.
pub fn labels_are_known()
    ensures known { (parent own : FileView Expr) → HasNamesInOrder parent → HasNamesInOrder own → names_unknown_label parent ≡ false → inherits_unknown_label parent own ≡ false → names_unknown_label (inherit parent own) ≡ false }
    ensures stay { (old new own : FileView Expr) → HasNamesInOrder old → HasNamesInOrder new → HasNamesInOrder own → covers old new ≡ true → inherits_unknown_label old own ≡ false → inherits_unknown_label new own ≡ false }
{}

/// The texts of a line spell at most one effective file: its expressions have the same trees, and all else is equal.
pub fn one_effective_file()
    ensures { (texts : List (List ℕ)) (f g : FileView Expr) → IsEffective texts f → IsEffective texts g → file_trees f ≡ file_trees g }
{
    one_file();
}
