//! Laws of the files of projects, as contracts of calls that do nothing.
ghost use Rattle.std.specs.Prelude.{◌≡◌, ◌∷◌, ℕ, List, true, false};
ghost use Rattle.review_words.specs.History.{Entry, is_project};
ghost use Rattle.review_file_rules.specs.{Expressions.names_unknown_label, Rights.covers};
ghost use Rattle.review_machine_rows.specs.Answer.{IsHistory};
ghost use Rattle.review_machine_rows.specs.Changes.{Reading, Reads, file_of, own_of};
ghost use Rattle.{review_machine_rows.specs.Lines.most_depth, review_machine_laws.specs.Ends.ends};

use review_file_rules::one_file;

/// In every history the line of each project ends within the greatest depth: one parent after the other is a project, and the last has none.
/// No request takes a label, or a value of one, from the effective file of any project: neither the new file of the project itself nor that of an
/// ancestor. And the requirements of each effective file name its labels alone.
pub fn files_stay_sound()
    ensures lines { (reading : Reading) (h : List Entry) → IsHistory h → Reads reading h → (project : List ℕ) → is_project h project ≡ true → ends (own_of h) most_depth project ≡ true }
    ensures labels { (reading : Reading) (e : Entry) (h : List Entry) → IsHistory (e ∷ h) → Reads reading (e ∷ h) → (project : List ℕ) → is_project h project ≡ true →
        covers (file_of reading h project) (file_of reading (e ∷ h) project) ≡ true }
    ensures known { (reading : Reading) (h : List Entry) → IsHistory h → Reads reading h → (project : List ℕ) → is_project h project ≡ true → names_unknown_label (file_of reading h project) ≡ false }
{
    one_file();
}
