//! What the tables of an earlier version keep of a history.
ghost use Rattle.std.specs.{List.AllByRecursion, Prelude.◌≡◌, Prelude.ℕ, Prelude.List, Prelude.option_map};
ghost use Rattle.review_words.specs.History.{Entry, file_text};
ghost use Rattle.review_machine_rows.specs.{Answer.IsHistory, Changes.own_of};
ghost use Rattle.review_sql_records.specs.Forms.{file_without_parent};

/// In a history whose entries are all of version 1 no project has a parent, since a text that names one was refused then. So tables of version 1, which tell of no
/// parents, can have just what such a history says.
pub fn first_version_has_no_parents()
    ensures { (h : List Entry) → IsHistory h → AllByRecursion (λ e. e.version ≡ 1) h → (project : List ℕ) → own_of h project ≡ option_map file_without_parent (file_text h project) }
{}
