//! Laws of the changes of a history.
ghost use Rattle.std.specs.Prelude.{◌≡◌, ℕ, List, Some};
ghost use Rattle.review_words.specs.History.{Entry};
ghost use Rattle.review_core_rules.specs.{Change.Change, Sound.IsSound};
ghost use Rattle.review_machine_rows.specs.{Answer.IsHistory, Changes.Reading, Changes.Reads, Changes.change};

use review_core_rules::{begins_sound, stays_sound};

/// Every change of a history is sound: its votes and comments are on its patch sets, who voted on the current one has a role, and who is in
/// its attention set is eligible.
pub fn changes_are_sound()
    ensures { (reading : Reading) (h : List Entry) (n : ℕ) (c : Change) → IsHistory h → Reads reading h → change reading h n ≡ Some c → IsSound c }
{
    begins_sound();
    stays_sound();
}

/// Every history has a reading: each text that was put in it spells a file. So what is said of all readings that are right for a history is
/// said of one at least.
#[tactic(auto, using(review_machine_rows::proofs::Readings::reading_of))]
pub fn histories_are_read()
    ensures { (h : List Entry) → IsHistory h → (reading : Reading) × Reads reading h }
{}
