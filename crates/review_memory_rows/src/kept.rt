//! The rows of all changes in memory, with an index by commit and one by place.
ghost use Rattle.std.specs.Ordering.{nat_cmp};
ghost use Rattle.std.specs.Prelude.{◌≡◌, Some, ◌++◌, [], ℕ, IfErr, IfOk, MatchBool, OnOk, OnErr, option_map};
ghost use Rattle.{review_table.specs.Rows.row_in, review_table.specs.Rows.rows_of, review_core_rules.specs.Seen.seen};
ghost use Rattle.review_machine_rows.specs.Known.{HasChange, IsLast, IsMergedWith, IsSentBy, header_key};
ghost use Rattle.review_memory_rows.specs.Kept.{is_sent, row_of, sent_by, sent_in, with_sent, AreNumbered, ArePrepared, made, HasRoomFor, IsFoundSent, IsFull, IsFullBut, IsLastOf, IsPrepared, IsReady, IsSentAs, IsSentIn, IsUnread};

use crate::edits::{NewTables, edited, first_tables, renew_all};
use crate::places::{PlaceKey, placed_by};
use review_core_rules::{ChangeRows, PatchRow};
use review_machine_change_rows::{ChangeFault, ChangeTables, copied_change};
use review_machine_rows::{Base, ChangeEdit};
use review_table::{Key, RowEdit, Table};
use review_words::{ChangeNo, CommitName, PatchNo, State};
use std::alloc::{AllocError, Global};
use std::marker::Model;

/// That a patch set of a change may have a commit.
#[derive(PartialEq, Eq, PartialOrd, Ord, Drop)]
pub struct SentKey {
    pub commit: CommitName,
    pub change: ChangeNo,
    pub patch: PatchNo,
}

impl Key for SentKey {
    fn copy(&self) -> Result<SentKey, AllocError> {
        Ok(SentKey {
            commit: self.commit.copy()?,
            change: self.change,
            patch: self.patch,
        })
    }
}

/// What edits make of changes, in tables of its own: only room is wanted to make it so. Of a change that is there it has the tables that change.
#[derive(Drop)]
pub struct Prepared {
    begun: Vec<RowEdit<ChangeNo, ChangeTables>>,
    renewed: Vec<(ChangeNo, NewTables)>,
    keys: Vec<RowEdit<SentKey, ()>>,
    places: Vec<RowEdit<PlaceKey, ()>>,
}

/// The rows of changes by their numbers, with an index of the patch sets by commit, and one of the changes that joined a branch by
/// branch and place. An index may have more than that: what it finds is looked up in the rows. Contracts see the tables of each change.
#[derive(Drop)]
pub struct KeptChanges {
    pub(crate) kept: Table<ChangeNo, ChangeTables>,
    pub(crate) sent: Table<SentKey, ()>,
    pub(crate) placed: Table<PlaceKey, ()>,
}

impl Model for KeptChanges {
    ghost use Rattle.review_table.specs.Rows.{rows_of};
    ghost use Rattle.review_memory_rows.specs.Kept.{AreIndexed, KeptView};

    ghost Value = { KeptView };

    ghost view = { λ t. record { kept = t.kept; sent = t.sent; placed = t.placed } };

    ghost invariant = { λ t. AreIndexed (rows_of t.sent) (rows_of t.placed) (rows_of t.kept) };
}

impl KeptChanges {
    /// No changes.
    pub fn new(alloc: Global) -> KeptChanges
        ensures { result ≡ record { kept = []; sent = []; placed = [] } }
    {
        KeptChanges {
            kept: Table::new(alloc),
            sent: Table::new(alloc),
            placed: Table::new(alloc),
        }
    }

    /// The change of a number with all its rows, or that there is none. Gap where its rows are those of no change.
    pub fn load(
        &self,
        alloc: Global,
        number: ChangeNo,
    ) -> Result<Option<Box<ChangeRows>>, ChangeFault>
        ensures found { IfOk result (λ change. HasChange (row_of (rows_of self.now.kept)) number (option_map (λ c. seen c.value) change)) }
        ensures fault { IfErr result (IsUnread (rows_of self.now.kept) number) }
    {
        match self.kept.get(&number) {
            Some(tables) => Ok(Some(copied_change(alloc, tables)?)),
            None => Ok(None),
        }
    }

    /// The greatest number of a change; 0 where there is none.
    pub fn last(&self) -> u32
        ensures { IsLast header_key (row_of (rows_of self.now.kept)) result }
    {
        match self.kept.last_key() {
            Some(number) => number.get(),
            None => 0,
        }
    }

    /// The change for a branch that has a patch set of a commit, or that none has.
    pub fn sender(&self, alloc: Global, base: &Base) -> Result<Option<ChangeNo>, AllocError>
        ensures { IfOk result (IsSentBy (row_of (rows_of self.now.kept)) base.now) }
    {
        match self.find_sent(alloc, base, false)? {
            Some((change, _)) => Ok(Some(change)),
            None => Ok(None),
        }
    }

    /// The change for a branch that has a patch set of a commit, with the patch set's number, or that none has.
    pub fn sent_patch(
        &self,
        alloc: Global,
        base: &Base,
    ) -> Result<Option<(ChangeNo, PatchNo)>, AllocError>
        ensures { IfOk result (IsSentIn (row_of (rows_of self.now.kept)) base.now) }
    {
        self.find_sent(alloc, base, false)
    }

    /// Whether a commit is the current one of a merged change for its branch.
    pub fn is_merged(&self, alloc: Global, base: &Base) -> Result<bool, AllocError>
        ensures { IfOk result (λ is. MatchBool is ((n : ℕ) × IsMergedWith (row_of (rows_of self.now.kept)) base.now n) ((n : ℕ) → IsMergedWith (row_of (rows_of self.now.kept)) base.now n → ⊥)) }
    {
        let merged = self.find_sent(alloc, base, true)?;
        Ok(merged.is_some())
    }

    // A change for a branch with the number of a patch set that has a commit; where it is to be merged, as its current one.
    fn find_sent(
        &self,
        alloc: Global,
        base: &Base,
        merged: bool,
    ) -> Result<Option<(ChangeNo, PatchNo)>, AllocError>
        ensures { IfOk result (IsFoundSent merged (rows_of self.now.kept) base.now) }
    {
        let from = least_key(base)?;
        let to = greatest_key(base)?;
        for (key, _) in self.sent.select(alloc, from, to)? {
            if self.has_sent(base, merged, key) {
                return Ok(Some((key.change, key.patch)));
            }
        }
        Ok(None)
    }

    // Whether the change of a key has sent the commit so, by the key's patch set.
    fn has_sent(&self, base: &Base, merged: bool, key: &SentKey) -> bool
        ensures { MatchBool result (IsSentAs merged (row_in nat_cmp (rows_of self.now.kept) key.now.change) base.now key.now.patch) (IsSentAs merged (row_in nat_cmp (rows_of self.now.kept) key.now.change) base.now key.now.patch → ⊥) }
    {
        match self.kept.get(&key.change) {
            Some(tables) => is_sent_as(tables, base, merged, key.patch),
            None => false,
        }
    }

    /// What edits make of the changes that they name, of which the first of a change decides.
    pub fn prepare(&self, alloc: Global, edits: Vec<ChangeEdit>) -> Result<Prepared, AllocError>
        ensures { IfOk result (ArePrepared (rows_of self.now.kept) edits.items) }
    {
        let keys = sent_by(alloc, &edits)?;
        let places = placed_by(alloc, &edits)?;
        let mut begun = Vec::new(alloc);
        let mut renewed = Vec::with_capacity(alloc, edits.len())?;
        for edit in edits {
            prepare(alloc, &self.kept, edit, &mut begun, &mut renewed)?;
        }
        Ok(Prepared {
            begun,
            renewed,
            keys,
            places,
        })
    }

    /// Makes room for edits, which changes no row. An error leaves as little room as there was.
    pub fn reserve(&mut self, alloc: Global, prepared: &Prepared) -> Result<(), AllocError>
        ensures kept { rows_of self.new.kept ≡ rows_of self.old.kept }
        ensures room { OnOk result (HasRoomFor prepared.now self.new) }
        ensures spare { OnOk result (IsFull self.old → IsFullBut prepared.now self.new) }
        ensures full { OnErr result (IsFull self.old → IsFull self.new) }
    {
        let reserved = reserve(&mut self.kept, &mut self.sent, &mut self.placed, prepared);
        match reserved {
            Ok(()) => Ok(()),
            Err(error) => {
                self.release(prepared);
                Err(error)
            }
        }
    }

    /// Makes edits for which there is room.
    pub fn apply(&mut self, prepared: Prepared)
        requires room { HasRoomFor prepared self.old }
        requires ready { IsReady (rows_of self.old.kept) prepared }
        ensures done { (n : ℕ) → row_in nat_cmp (rows_of self.new.kept) n ≡ made prepared n (row_in nat_cmp (rows_of self.old.kept) n) }
        ensures full { IsFullBut prepared self.old → IsFull self.new }
    {
        self.kept.apply(prepared.begun);
        renew_all(&mut self.kept, prepared.renewed);
        self.sent.apply(prepared.keys);
        self.placed.apply(prepared.places);
    }

    /// Drops the places that hold no row, of those that edits name.
    pub fn release(&mut self, prepared: &Prepared)
        ensures kept { rows_of self.new.kept ≡ rows_of self.old.kept }
        ensures full { IsFullBut prepared.now self.old → IsFull self.new }
    {
        self.kept.release(&prepared.begun);
        self.sent.release(&prepared.keys);
        self.placed.release(&prepared.places);
    }
}

// Makes room for changes, which changes no row.
fn reserve(
    kept: &mut Table<ChangeNo, ChangeTables>,
    sent: &mut Table<SentKey, ()>,
    placed: &mut Table<PlaceKey, ()>,
    prepared: &Prepared,
) -> Result<(), AllocError>
    ensures kept { rows_of kept.new ≡ rows_of kept.old }
    ensures sent { rows_of sent.new ≡ rows_of sent.old }
    ensures placed { rows_of placed.new ≡ rows_of placed.old }
    ensures room { OnOk result (HasRoomFor prepared.now (record { kept = kept.new; sent = sent.new; placed = placed.new })) }
    ensures spare { IsFull (record { kept = kept.old; sent = sent.old; placed = placed.old }) → IsFullBut prepared.now (record { kept = kept.new; sent = sent.new; placed = placed.new }) }
{
    kept.reserve_all(&prepared.begun)?;
    sent.reserve_all(&prepared.keys)?;
    placed.reserve_all(&prepared.places)?;
    Ok(())
}

// What an edit makes of its change: its tables, where there was none, and otherwise those that change.
fn prepare(
    alloc: Global,
    kept: &Table<ChangeNo, ChangeTables>,
    edit: ChangeEdit,
    begun: &mut Vec<RowEdit<ChangeNo, ChangeTables>>,
    renewed: &mut Vec<(ChangeNo, NewTables)>,
) -> Result<(), AllocError>
    ensures { OnOk result (IsPrepared (row_in nat_cmp (rows_of kept.now) edit.change) edit begun.old.items begun.new.items renewed.old.items renewed.new.items) }
{
    let change = edit.change;
    match kept.get(&change) {
        Some(old) => {
            let tables = edited(alloc, old, edit)?;
            renewed.push((change, tables))?;
            Ok(())
        }
        None => {
            let tables = first_tables(alloc, edit)?;
            begun.push(RowEdit {
                key: change,
                row: Some(tables),
            })?;
            Ok(())
        }
    }
}

// The keys of the patch sets that changes get.
fn sent_by(alloc: Global, edits: &[ChangeEdit]) -> Result<Vec<RowEdit<SentKey, ()>>, AllocError>
    ensures items { IfOk result (λ sent. sent.items ≡ sent_by edits.now) }
    ensures numbered { IfOk result (λ sent. AreNumbered sent.items) }
{
    let mut sent = Vec::new(alloc);
    for edit in edits {
        add_sent(&mut sent, edit)?;
    }
    Ok(sent)
}

fn add_sent(sent: &mut Vec<RowEdit<SentKey, ()>>, edit: &ChangeEdit) -> Result<(), AllocError>
    ensures items { OnOk result (sent.new.items ≡ sent.old.items ++ sent_in edit.now.change edit.now.patches.items) }
    ensures numbered { OnOk result (AreNumbered sent.old.items → AreNumbered sent.new.items) }
{
    for patch in &edit.patches {
        add_key(sent, edit.change, patch)?;
    }
    Ok(())
}

fn add_key(
    sent: &mut Vec<RowEdit<SentKey, ()>>,
    change: ChangeNo,
    patch: &RowEdit<PatchNo, PatchRow>,
) -> Result<(), AllocError>
    ensures items { OnOk result (sent.new.items ≡ sent.old.items ++ with_sent change patch.now.key patch.now.row []) }
    ensures numbered { OnOk result (AreNumbered sent.old.items → AreNumbered sent.new.items) }
{
    // A range over a commit finds the patch set by its numbers.
    let _ = change.get();
    let _ = patch.key.get();
    let Some(row) = &patch.row else {
        return Ok(());
    };
    let key = SentKey {
        commit: row.commit.copy()?,
        change,
        patch: patch.key,
    };
    sent.push(RowEdit { key, row: Some(()) })?;
    Ok(())
}

fn is_sent(tables: &ChangeTables, base: &Base, patch: PatchNo) -> bool
    ensures { result ≡ is_sent (Some tables.now) base.now patch }
{
    match tables.patches.get(&patch) {
        Some(row) => {
            tables.header.project.as_str() == base.project.as_str()
                && tables.header.branch.as_str() == base.branch.as_str()
                && row.commit.as_str() == base.commit.as_str()
        }
        None => false,
    }
}

// Whether a change is for the branch, and its patch set has the commit; where it is to be merged, as its current one.
fn is_sent_as(tables: &ChangeTables, base: &Base, merged: bool, patch: PatchNo) -> bool
    ensures { MatchBool result (IsSentAs merged (Some tables.now) base.now patch) (IsSentAs merged (Some tables.now) base.now patch → ⊥) }
{
    if !is_sent(tables, base, patch) {
        return false;
    }
    if !merged {
        return true;
    }
    match tables.header.state {
        State::Merged => is_last(tables, patch),
        State::New | State::Abandoned => false,
    }
}

// Whether no patch set of a change has a greater number.
fn is_last(tables: &ChangeTables, patch: PatchNo) -> bool
    ensures { MatchBool result (IsLastOf (rows_of tables.now.patches) patch) (IsLastOf (rows_of tables.now.patches) patch → ⊥) }
{
    let Some(last) = tables.patches.last_key() else {
        return true;
    };
    if last.get() > patch.get() {
        return false;
    }
    true
}

#[tactic(auto, unfolding(review_names::specs::Forms::is_within))]
fn least_key(base: &Base) -> Result<SentKey, AllocError>
    ensures { IfOk result (λ k. k ≡ record { commit = base.now.commit; change = 1; patch = 1 }) }
{
    let Some(change) = ChangeNo::from_number(1) else {
        unreachable!()
    };
    let Some(patch) = PatchNo::from_number(1) else {
        unreachable!()
    };
    Ok(SentKey {
        commit: base.commit.copy()?,
        change,
        patch,
    })
}

#[tactic(auto, unfolding(review_names::specs::Forms::is_within))]
fn greatest_key(base: &Base) -> Result<SentKey, AllocError>
    ensures { IfOk result (λ k. k ≡ record { commit = base.now.commit; change = 1000000000; patch = 1000 }) }
{
    let Some(change) = ChangeNo::from_number(1_000_000_000) else {
        unreachable!()
    };
    let Some(patch) = PatchNo::from_number(1_000) else {
        unreachable!()
    };
    Ok(SentKey {
        commit: base.commit.copy()?,
        change,
        patch,
    })
}
