//! The places of changes in branches, as keys of an index.
ghost use Rattle.std.specs.Prelude.{◌≡◌, ◌++◌, Some, IfOk, OnOk, flat_map};
ghost use Rattle.review_memory_rows.specs.Kept.{is_placed, placed_in, ArePlaceKeys};

use review_machine_change_rows::ChangeTables;
use review_machine_rows::{BranchKey, ChangeEdit};
use review_table::{Key, RowEdit};
use review_words::ChangeNo;
use std::alloc::{AllocError, Global};

/// That a change may stand at a place of a branch.
#[derive(PartialEq, Eq, PartialOrd, Ord, Drop)]
pub struct PlaceKey {
    pub branch: BranchKey,
    /// From 1.
    pub place: u32,
    pub change: ChangeNo,
}

impl Key for PlaceKey {
    fn copy(&self) -> Result<PlaceKey, AllocError> {
        let branch = self.branch.copy()?;
        Ok(PlaceKey {
            branch,
            place: self.place,
            change: self.change,
        })
    }
}

/// The keys of the places that changes get. An error is want of memory.
pub fn placed_by(
    alloc: Global,
    edits: &[ChangeEdit],
) -> Result<Vec<RowEdit<PlaceKey, ()>>, AllocError>
    ensures items { IfOk result (λ placed. placed.items ≡ flat_map placed_in edits.now) }
    ensures fit { IfOk result (λ placed. ArePlaceKeys placed.items) }
{
    let mut placed = Vec::new(alloc);
    for edit in edits {
        add_place(&mut placed, edit)?;
    }
    Ok(placed)
}

fn add_place(placed: &mut Vec<RowEdit<PlaceKey, ()>>, edit: &ChangeEdit) -> Result<(), AllocError>
    ensures items { OnOk result (placed.new.items ≡ placed.old.items ++ placed_in edit.now) }
    ensures fit { OnOk result (ArePlaceKeys placed.old.items → ArePlaceKeys placed.new.items) }
{
    // A range over a branch finds the change by its number.
    let _ = edit.change.get();
    let place = edit.header.place;
    if place == 0 {
        return Ok(());
    }
    let branch = BranchKey {
        project: edit.header.project.copy()?,
        branch: edit.header.branch.copy()?,
    };
    let key = PlaceKey {
        branch,
        place,
        change: edit.change,
    };
    placed.push(RowEdit { key, row: Some(()) })?;
    Ok(())
}

/// Whether a change is for a branch, at a place in it.
pub fn is_placed(tables: &ChangeTables, branch: &BranchKey, place: u32) -> bool
    ensures { result ≡ is_placed (Some tables.now) branch.now place }
{
    tables.header.project.as_str() == branch.project.as_str()
        && tables.header.branch.as_str() == branch.branch.as_str()
        && tables.header.place == place
}

/// The key before which none of a branch stands. An error is want of memory.
#[tactic(auto, unfolding(review_names::specs::Forms::is_within))]
pub fn least_place(branch: &BranchKey) -> Result<PlaceKey, AllocError>
    ensures { IfOk result (λ k. k ≡ record { branch = branch.now; place = 1; change = 1 }) }
{
    let Some(change) = ChangeNo::from_number(1) else {
        unreachable!()
    };
    Ok(PlaceKey {
        branch: branch.copy()?,
        place: 1,
        change,
    })
}

/// The key behind which none of a branch stands. An error is want of memory.
#[tactic(auto, unfolding(review_names::specs::Forms::is_within))]
pub fn greatest_place(branch: &BranchKey) -> Result<PlaceKey, AllocError>
    ensures { IfOk result (λ k. k ≡ record { branch = branch.now; place = 4294967295; change = 1000000000 }) }
{
    let Some(change) = ChangeNo::from_number(1_000_000_000) else {
        unreachable!()
    };
    Ok(PlaceKey {
        branch: branch.copy()?,
        place: u32::MAX,
        change,
    })
}
