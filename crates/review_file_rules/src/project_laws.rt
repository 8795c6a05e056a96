//! The law of the groups that expressions name, as a contract of a call that does nothing.
ghost use Rattle.std.specs.Prelude.{◌≡◌};
ghost use Rattle.review_names.specs.Groups.{GroupList};
ghost use Rattle.review_expr_judging.specs.declared.facts.{ChangeFacts.ChangeFacts, VoteFacts.VoteFacts};
ghost use Rattle.review_expr.specs.{Exprs.holds_for, declared.expr.Expr.Expr};
ghost use Rattle.review_file_rules.specs.Named.{SameInAll, groups_in};
ghost use Rattle.review_expr.specs.declared.expr.Facts.TheVariants as facts;

/// An expression holds alike whatever other groups there are: who is in the groups that it names decides.
pub fn groups_suffice()
    ensures vote { (e : Expr) (f : VoteFacts) (other : GroupList) → SameInAll f.groups other (groups_in e) → holds_for (facts.Vote f) e ≡ holds_for (facts.Vote (record f { groups = other })) e }
    ensures change { (e : Expr) (f : ChangeFacts) (other : GroupList) → SameInAll f.groups other (groups_in e) → holds_for (facts.Change f) e ≡ holds_for (facts.Change (record f { groups = other })) e }
{}
