//! The change that a command names, and what it makes of it.
ghost use Rattle.std.specs.Prelude.{[], ◌≡◌, ◌⊎◌, ◌∷◌, IfOk, IfErr};
ghost use Rattle.review_words.specs.declared.reply.NotTaken.TheVariants.{Damaged, Memory};
ghost use Rattle.review_core_rules.specs.{EditedChanges.after_edits, Seen.seen, Sound.IsSound};
ghost use Rattle.review_machine_rows.specs.Decisions.{NamesEachOnce, NamesRowsOnce};
ghost use Rattle.review_machine_accounts.specs.Decisions.{EditsChanges};
ghost use Rattle.review_machine_changes.specs.Deltas.{MakesChange};

use review_core::{ChangeFile, RowsFault};
use review_core_rules::{ChangeRows, EditedChange};
use review_machine_accounts::nothing;
use review_machine_change_rows::edit_of;
use review_machine_rows::{ChangeEdit, Delta};
use review_words::{ChangeNo, NotTaken};
use std::alloc::{AllocError, Global};

/// The change of rows that were loaded. Damaged only where they don't fit together.
pub fn change_file<'r>(alloc: Global, found: &'r ChangeRows) -> Result<ChangeFile<'r>, NotTaken>
    ensures file { IfOk result (λ f. seen f.rows.now ≡ seen found.now) }
    ensures sound { IfOk result (λ f. IsSound (seen found.now)) }
    ensures cause { IfErr result (λ e. (e ≡ Memory) ⊎ ((e ≡ Damaged) × (IsSound (seen found.now) → ⊥))) }
{
    match ChangeFile::from_rows(alloc, found) {
        Ok(file) => Ok(told_sound(file)),
        Err(RowsFault::Broken) => Err(NotTaken::Damaged),
        Err(RowsFault::Memory) => Err(NotTaken::Memory),
    }
}

/// The change as it is, of which it is said here that it is sound.
fn told_sound<'r>(file: ChangeFile<'r>) -> ChangeFile<'r>
    ensures same { result.rows ≡ file.entry.rows }
    ensures sound { IsSound (seen file.entry.rows.now) }
{
    let _rows = file.rows();
    file
}

/// The delta of one edit.
pub fn delta_of(alloc: Global, edit: ChangeEdit) -> Result<Delta, AllocError>
    ensures edits { IfOk result (EditsChanges (edit ∷ [])) }
    ensures once { IfOk result (λ delta. NamesRowsOnce edit → NamesEachOnce delta) }
{
    let mut delta = nothing(alloc);
    delta.changes.push(edit)?;
    Ok(delta)
}

/// The delta that turns a change into what was made of it.
pub fn turned(alloc: Global, change: ChangeNo, edited: EditedChange) -> Result<Delta, AllocError>
    requires { IsSound (after_edits edited) }
    ensures made { IfOk result (MakesChange change (seen edited.entry.rows.now) (after_edits edited.entry)) }
    ensures once { IfOk result NamesEachOnce }
{
    let edit = edit_of(alloc, change, edited)?;
    delta_of(alloc, edit)
}
