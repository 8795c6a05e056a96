//! Changes that join their branch.
ghost use Rattle.std.specs.List.{AllByRecursion, IsDistinct};
ghost use Rattle.std.specs.Prelude.{◌≡◌, ◌⊎◌, ◌==◌, ◌-◌, ◌^◌, IfErr, IfOk, List, min, ℕ};
ghost use Rattle.review_table.specs.Rows.{after_row_edit};
ghost use Rattle.review_words.specs.declared.reply.NotTaken.TheVariants.{Damaged, Memory};
ghost use Rattle.review_core_rules.specs.{Change.joined_at, Parts.Part, Parts.part_row, Seen.seen};
ghost use Rattle.review_machine_rows.specs.{Decisions.NamesEachOnce, Decisions.NamesRowsOnce, Rows.part_change};
ghost use Rattle.review_machine_submits.specs.Submits.{AreJoinEdits, HasUnsound, IsJoinEdit, IsThere, JoinsChain, last_in};

use review_chain::joins;
use review_core::ChangeFile;
use review_core_rules::ChangeRows;
use review_machine_accounts::{branch_of, nothing};
use review_machine_change_rows::edit_of;
use review_machine_changes::edits::change_file;
use review_machine_changes::facts::next_request;
use review_machine_rows::{ChangeEdit, Delta, Rows, Want};
use review_words::{ChangeNo, NotTaken};
use std::alloc::{AllocError, Global};

/// What joining its branch makes of a change, row by row.
fn edit_by(
    alloc: Global,
    change: ChangeNo,
    file: &ChangeFile,
    place: u32,
    request: u64,
) -> Result<ChangeEdit, AllocError>
    ensures change { IfOk result (λ e. e.change ≡ change) }
    ensures becomes { IfOk result (λ e. (part : Part) → after_row_edit (part_change e part) (part_row (seen file.now.rows.now) part) ≡ part_row (joined_at place request (seen file.now.rows.now)) part) }
    ensures once { IfOk result NamesRowsOnce }
{
    let edited = file.merged(alloc, place, request)?;
    edit_of(alloc, change, edited)
}

/// The edit that makes a change join its branch at a place. Damaged only where the change isn't sound.
fn join_edit(
    alloc: Global,
    rows: &Rows,
    change: ChangeNo,
    place: u32,
    request: u64,
) -> Result<ChangeEdit, NotTaken>
    requires { IsThere rows.now change }
    ensures edit { IfOk result (IsJoinEdit rows.now request change place) }
    ensures once { IfOk result NamesRowsOnce }
    ensures cause { IfErr result (λ e. (e ≡ Memory) ⊎ ((e ≡ Damaged) × HasUnsound rows.now)) }
{
    let Some(found) = rows.change(change) else {
        unreachable!()
    };
    let file = change_file(alloc, found)?;
    let edit = edit_by(alloc, change, &file, place, request)?;
    Ok(edit)
}

/// The edits that make changes join their branch at their places.
fn join_edits(
    alloc: Global,
    rows: &Rows,
    joined: &[(ChangeNo, u32)],
    request: u64,
) -> Result<Vec<ChangeEdit>, NotTaken>
    requires { AllByRecursion (λ j. IsThere rows.now j.0) joined.now }
    ensures edits { IfOk result (λ es. AreJoinEdits rows.now request joined.now es.items) }
    ensures once { IfOk result (λ es. AllByRecursion NamesRowsOnce es.items) }
    ensures cause { IfErr result (λ e. (e ≡ Memory) ⊎ ((e ≡ Damaged) × HasUnsound rows.now)) }
{
    let mut edits = Vec::new(alloc);
    for (change, place) in joined {
        edits.push(join_edit(alloc, rows, *change, *place, request)?)?;
    }
    Ok(edits)
}

/// The last place that is taken in the branch of a change; 2^32 - 1 for a greater one, which no branch has.
fn last_joined(rows: &Rows, found: &ChangeRows) -> Result<u32, AllocError>
    ensures { IfOk result (λ last. last ≡ min (last_in rows.now (seen found.now)) (2 ^ 32 - 1)) }
{
    let want = Want::LastJoined(branch_of(&found.header.project, &found.header.branch)?);
    let last = rows.number(&want);
    drop(want);
    Ok(u32::try_from(last).unwrap_or(u32::MAX))
}

/// What makes the changes of a chain join the branch of a change, at the places after the last one that is taken.
pub fn join_chain(
    alloc: Global,
    rows: &Rows,
    found: &ChangeRows,
    chain: &[ChangeNo],
) -> Result<Delta, NotTaken>
    requires there { AllByRecursion (IsThere rows.now) chain.now }
    requires distinct { IsDistinct ◌==◌ chain.now }
    ensures joins { IfOk result (JoinsChain rows.now (seen found.now) chain.now) }
    ensures once { IfOk result NamesEachOnce }
    ensures cause { IfErr result (λ e. (e ≡ Memory) ⊎ ((e ≡ Damaged) × HasUnsound rows.now)) }
{
    let last = last_joined(rows, found)?;
    let joined = joins(alloc, chain, last)?;
    let request = next_request(rows);
    let edits = join_edits(alloc, rows, &joined, request)?;
    let mut delta = nothing(alloc);
    delta.changes = edits;
    Ok(delta)
}
