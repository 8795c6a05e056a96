//! What moves from one version to the next reads as it did.
ghost use Rattle.std.specs.List.{list_any};
ghost use Rattle.std.specs.Prelude.{◌≡◌, ◌≢◌, [], ℕ, List, Option, Some, false, length, not, option_map};
ghost use Rattle.sqlite_value.specs.Order.{Row as Raw};
ghost use Rattle.review_sql_tables.specs.Search.{only, reads, rows_at};
ghost use Rattle.review_sql_tables.specs.Versions.{AreMoved, with_first_epoch, without_parent};
ghost use Rattle.review_machine_rows.specs.declared.rows.StoredFile.{StoredFile};
ghost use Rattle.review_sql_records.specs.Forms.{answers, earlier_answers, first_epoch, first_projects, projects, earlier_key, answer_keyed, earlier_answer_keyed, project_keyed};
ghost use Rattle.review_sql_records.specs.declared.rows.Answered.{Answered as Rest};

/// Where each row of the projects of version 1 has a name, those that moved to the table of version 2 are as many, have names, and have under each name the
/// file that it had, or none; no other file is under a name that had one, and none is lost.
pub fn moved_projects_read_alike()
    ensures files { (old new : List Raw) → AreMoved without_parent old new → list_any (λ r. not (project_keyed r)) old ≡ false → (project : List ℕ) (file : Option StoredFile) →
        only (reads first_projects) (rows_at (first_projects.at project) old) ≡ option_map Some file → only (reads projects) (rows_at (projects.at project) new) ≡ option_map Some file }
    ensures count { (old new : List Raw) → AreMoved without_parent old new → list_any (λ r. not (project_keyed r)) old ≡ false → length new ≡ length old }
    ensures named { (old new : List Raw) → AreMoved without_parent old new → list_any (λ r. not (project_keyed r)) old ≡ false → list_any (λ r. not (project_keyed r)) new ≡ false }
{}

/// Where each row of the stored requests of version 2 has a key, those that moved to the table of version 3 have keys, and have under each identity of the first epoch the
/// request that it had, or none; under identities of other epochs none is stored.
pub fn moved_answers_read_alike()
    ensures stored { (old new : List Raw) → AreMoved with_first_epoch old new → list_any (λ r. not (earlier_answer_keyed r)) old ≡ false → (caller : ℕ) (id : List ℕ) (stored : Option Rest) →
        only (reads earlier_answers) (rows_at (earlier_answers.at (earlier_key caller id)) old) ≡ option_map Some stored → only (reads answers) (rows_at (answers.at (earlier_key caller id)) new) ≡ option_map Some stored }
    ensures others { (old new : List Raw) → AreMoved with_first_epoch old new → (caller epoch : ℕ) (id : List ℕ) → epoch ≢ first_epoch → rows_at (answers.at (record { caller = caller; epoch = epoch; id = id })) new ≡ [] }
    ensures keyed { (old new : List Raw) → AreMoved with_first_epoch old new → list_any (λ r. not (earlier_answer_keyed r)) old ≡ false → list_any (λ r. not (answer_keyed r)) new ≡ false }
{}
