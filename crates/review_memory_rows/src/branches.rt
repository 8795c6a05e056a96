//! Which changes joined a branch.
ghost use Rattle.std.specs.Ordering.{nat_cmp};
ghost use Rattle.std.specs.Prelude.{◌≡◌, IfOk, OnOk, max, option_copied, if◌then◌else◌};
ghost use Rattle.review_table.specs.Rows.{row_in, rows_of};
ghost use Rattle.review_machine_rows.specs.Known.{HaveJoined, IsLastJoined};
ghost use Rattle.review_memory_rows.specs.Kept.{is_placed, row_of, AddsJoined, IsCurrentOf, IsJoinedOrNot};

use crate::kept::KeptChanges;
use crate::places::{PlaceKey, greatest_place, is_placed, least_place};
use review_core_rules::PatchRow;
use review_machine_change_rows::ChangeTables;
use review_machine_rows::BranchKey;
use review_table::Key;
use review_words::{JoinedChange, Listed};
use std::alloc::{AllocError, Global};

impl KeptChanges {
    /// The last place that a change joined a branch at; 0 where none did. An error is want of memory.
    pub fn last_joined(&self, alloc: Global, branch: &BranchKey) -> Result<u32, AllocError>
        ensures { IfOk result (IsLastJoined (row_of (rows_of self.now.kept)) branch.now) }
    {
        let from = least_place(branch)?;
        let to = greatest_place(branch)?;
        let Some(key) = self.placed.last_between(from, to) else {
            return Ok(0);
        };
        if self.has_place(branch, key) {
            return Ok(key.place);
        }
        // A place that was given once stays, so no history comes here.
        self.last_of_all(alloc, branch)
    }

    // The last place that a change joined a branch at, by each place that the index has of it.
    fn last_of_all(&self, alloc: Global, branch: &BranchKey) -> Result<u32, AllocError>
        ensures { IfOk result (IsLastJoined (row_of (rows_of self.now.kept)) branch.now) }
    {
        let from = least_place(branch)?;
        let to = greatest_place(branch)?;
        let mut last = 0;
        for (key, _) in self.placed.select(alloc, from, to)? {
            last = self.later_place(branch, key, last);
        }
        Ok(last)
    }

    // The greater of a place and that of a key, where the key's change is at it.
    fn later_place(&self, branch: &BranchKey, key: &PlaceKey, last: u32) -> u32
        ensures { result ≡ (if is_placed (row_in nat_cmp (rows_of self.now.kept) key.now.change) branch.now key.now.place then max key.now.place last else last) }
    {
        if !self.has_place(branch, key) {
            return last;
        }
        key.place.max(last)
    }

    // Whether the change of a key is for the branch, at the key's place in it.
    fn has_place(&self, branch: &BranchKey, key: &PlaceKey) -> bool
        ensures { result ≡ is_placed (row_in nat_cmp (rows_of self.now.kept) key.now.change) branch.now key.now.place }
    {
        match self.kept.get(&key.change) {
            Some(tables) => is_placed(tables, branch, key.place),
            None => false,
        }
    }

    /// The changes that joined a branch, in the order of their places. An error is want of memory.
    pub fn joined(
        &self,
        alloc: Global,
        branch: &BranchKey,
    ) -> Result<Listed<JoinedChange>, AllocError>
        ensures { IfOk result (HaveJoined (row_of (rows_of self.now.kept)) branch.now) }
    {
        let from = least_place(branch)?;
        let to = greatest_place(branch)?;
        let mut joined = Vec::new(alloc);
        self.placed.once();
        for (key, _) in self.placed.select(alloc, from, to)? {
            self.add_joined(branch, key, &mut joined)?;
        }
        Ok(Listed::from_vec(joined))
    }

    // Adds the change of a key, where it is for the branch, at the key's place in it.
    fn add_joined(
        &self,
        branch: &BranchKey,
        key: &PlaceKey,
        joined: &mut Vec<JoinedChange>,
    ) -> Result<(), AllocError>
        ensures { OnOk result (AddsJoined (row_of (rows_of self.now.kept)) branch.now key.now joined.old.items joined.new.items) }
    {
        let found = self.joined_at(branch, key)?;
        match found {
            Some(change) => {
                joined.push(change)?;
                Ok(())
            }
            None => Ok(()),
        }
    }

    // The change of a key with its current commit, where it is for the branch, at the key's place in it.
    fn joined_at(
        &self,
        branch: &BranchKey,
        key: &PlaceKey,
    ) -> Result<Option<JoinedChange>, AllocError>
        ensures { IfOk result (IsJoinedOrNot (row_of (rows_of self.now.kept)) branch.now key.now) }
    {
        let Some(tables) = self.kept.get(&key.change) else {
            return Ok(None);
        };
        if !is_placed(tables, branch, key.place) {
            return Ok(None);
        }
        let Some(patch) = current_patch(tables) else {
            return Ok(None);
        };
        Ok(Some(JoinedChange {
            change: key.change,
            commit: patch.commit.copy()?,
        }))
    }
}

// The current patch set of a change, where it has one.
fn current_patch(tables: &ChangeTables) -> Option<&PatchRow>
    ensures { IsCurrentOf (rows_of tables.now.patches) (option_copied result) }
{
    match tables.patches.last_key() {
        Some(number) => tables.patches.get(number),
        None => None,
    }
}
