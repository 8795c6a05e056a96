//! Laws of projects and votes, as contracts of calls that do nothing.
ghost use Rattle.{std.specs.Prelude.List, review_words.specs.History.Entry, review_machine_rows.specs.Answer.IsHistory};
ghost use Rattle.review_machine_laws.specs.SoundProjects.{AreSoundProjects};

use review_file_rules::one_file;

/// In every history: one parent after the other, the line of each project ends within the greatest depth; no effective file has lost a label or
/// a value that it ever had, whoever put a file; the requirements of each effective file name its labels; and each vote that stands on a
/// change is on a label of its project's effective file, with a value of it.
pub fn projects_are_sound()
    ensures { (h : List Entry) → IsHistory h → AreSoundProjects h }
{
    one_file();
}
