//! Laws of changes, as contracts of calls that do nothing.
ghost use Rattle.std.specs.Prelude.{◌≡◌, ◌==◌, ◌+◌, ℕ, List, true, false};
ghost use Rattle.review_words.specs.declared.{changes.NewChange.NewChange, command.ChangeCommand.ChangeCommand};
ghost use Rattle.review_core_rules.specs.Change.{Change, Copying, Setting, after, after_copying, begun, current, eligible, joined_at};
ghost use Rattle.review_core_rules.specs.{Sound.IsSound, Sound.fits, Votes.voted};

/// A request keeps a change sound, whatever it copies.
pub fn stays_sound()
    ensures { (k : Copying) (command : ChangeCommand) (caller request : ℕ) (c : Change) → IsSound c → fits command c ≡ true → IsSound (after_copying k command caller request c) }
{}

/// A new change is sound.
pub fn begins_sound()
    ensures { (n : NewChange) (caller request : ℕ) → IsSound (begun n caller request) }
{}

/// A change that joins its branch stays sound.
#[tactic(auto, using(crate::proofs::Stays::joins))]
pub fn joins_sound()
    ensures { (place request : ℕ) (c : Change) → IsSound c → IsSound (joined_at place request c) }
{}

/// Who voted on the current patch set of a sound change is eligible.
#[tactic(auto, using(crate::proofs::Stays::role_eligible))]
pub fn voters_are_eligible()
    ensures { (c : Change) (l : List ℕ) (a : ℕ) → IsSound c → voted (c.vote (current c) l a) ≡ true → eligible c a ≡ true }
{}
