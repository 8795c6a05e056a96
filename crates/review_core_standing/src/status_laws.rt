//! Laws of how requirements stand, as contracts of calls that do nothing.
ghost use Rattle.std.specs.Prelude.{◌≡◌, List};
ghost use Rattle.review_words.specs.declared.shown.ShownRequirement.{ShownRequirement};
ghost use Rattle.review_core_rules.specs.{Change.Change, Change.Setting, Facts.AreStanding};
ghost use Rattle.review_core_standing.specs.Counting.{CountsEachOnce};

/// A `label:` term counts accounts, each once: those whose vote on the label on the current patch set meets its comparison and who are
/// among the voters that it asks for. This is Gerrit's.
pub fn label_counts_accounts()
    ensures { (s : Setting) (c : Change) → CountsEachOnce s c }
{}

/// Requirements stand in one way for a change, by its project's file and the groups.
pub fn one_standing()
    ensures { (s : Setting) (c : Change) (a b : List ShownRequirement) → AreStanding s c a → AreStanding s c b → a ≡ b }
{}
