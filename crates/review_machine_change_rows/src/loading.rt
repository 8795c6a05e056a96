//! A change from its tables.
ghost use Rattle.std.specs.Prelude.{◌≡◌, IfErr, IfOk, OnOk};
ghost use Rattle.{review_table.specs.Rows.rows_of, review_core_rules.specs.Seen.seen};
ghost use Rattle.review_machine_change_rows.specs.Tables.{HaveFault, Show};
ghost use Rattle.review_machine_change_rows.specs.inner.Words.{AddsNext, AreInOrder, IsGap, IsNotNext};

use crate::copies::{copied_header, copied_marks};
use crate::rows::Copied;
use crate::tables::ChangeTables;
use review_core_rules::ChangeRows;
use review_machine_rows::ShelfFault;
use review_names::{Number, NumberKind};
use review_table::Table;
use std::alloc::{AllocError, Global};

/// Why a change, or the bases of a branch, are not given.
#[derive(Clone, Copy, PartialEq, Eq, Drop)]
pub enum ChangeFault {
    /// There was no memory for it.
    Memory,
    /// The numbers of its patch sets or of its comments, or the places of the bases, aren't 1, 2 and so on.
    Gap,
}

impl From<AllocError> for ChangeFault {
    ghost use Rattle.std.specs.Prelude.{◌≡◌};
    ghost use Rattle.review_machine_change_rows.specs.declared.loading.ChangeFault.TheVariants.{Memory};

    ghost from_gives = { λ _ f. f ≡ Memory };

    fn from(_error: AllocError) -> ChangeFault {
        ChangeFault::Memory
    }
}

impl From<ChangeFault> for ShelfFault {
    ghost use Rattle.std.specs.Prelude.{◌≡◌};
    ghost use Rattle.review_machine_change_rows.specs.Tables.{fault_of};

    ghost from_gives = { λ f e. e ≡ fault_of f };

    fn from(fault: ChangeFault) -> ShelfFault {
        match fault {
            ChangeFault::Memory => ShelfFault::Memory,
            ChangeFault::Gap => ShelfFault::Damaged,
        }
    }
}

fn boxed(alloc: Global, rows: ChangeRows) -> Result<Box<ChangeRows>, AllocError>
    ensures { IfOk result (λ boxed. boxed.value ≡ rows) }
{
    Ok(Box::new(alloc, rows)?)
}

/// The change that tables show, in a box, or why they show none: where their patch sets or comments have a gap, or there was no memory for it.
pub fn change_rows(alloc: Global, tables: ChangeTables) -> Result<Box<ChangeRows>, ChangeFault>
    ensures shown { IfOk result (λ rows. Show tables (seen rows.value)) }
    ensures fault { IfErr result (HaveFault tables) }
{
    let rows = ordered(alloc, tables)?;
    Ok(boxed(alloc, rows)?)
}

// The rows of a change in their order, or why tables show none.
fn ordered(alloc: Global, tables: ChangeTables) -> Result<ChangeRows, ChangeFault>
    ensures shown { IfOk result (λ rows. Show tables (seen rows)) }
    ensures fault { IfErr result (HaveFault tables) }
{
    let ChangeTables {
        header,
        patches,
        votes,
        roles,
        comments,
        attention,
    } = tables;
    let patches = in_order(alloc, patches)?;
    let comments = in_order(alloc, comments)?;
    Ok(ChangeRows {
        header,
        patches,
        votes,
        roles,
        comments,
        attention,
    })
}

/// The same, of copies of the rows of tables, which stay as they are.
pub fn copied_change(alloc: Global, tables: &ChangeTables) -> Result<Box<ChangeRows>, ChangeFault>
    ensures shown { IfOk result (λ rows. Show tables.now (seen rows.value)) }
    ensures fault { IfErr result (HaveFault tables.now) }
{
    let rows = ordered_copy(alloc, tables)?;
    Ok(boxed(alloc, rows)?)
}

// Copies of the rows of a change in their order, or why tables show none.
fn ordered_copy(alloc: Global, tables: &ChangeTables) -> Result<ChangeRows, ChangeFault>
    ensures shown { IfOk result (λ rows. Show tables.now (seen rows)) }
    ensures fault { IfErr result (HaveFault tables.now) }
{
    let patches = copied_in_order(alloc, &tables.patches)?;
    let comments = copied_in_order(alloc, &tables.comments)?;
    let header = copied_header(&tables.header)?;
    let marks = copied_marks(alloc, &tables.votes, &tables.roles, &tables.attention)?;
    Ok(ChangeRows {
        header,
        patches,
        votes: marks.votes,
        roles: marks.roles,
        comments,
        attention: marks.attention,
    })
}

// The rows of a table in the order of their numbers, or that these have a gap.
fn in_order<K: NumberKind, V: Drop>(
    alloc: Global,
    table: Table<Number<K>, V>,
) -> Result<Vec<V>, ChangeFault>
    ensures rows { IfOk result (λ rows. AreInOrder (rows_of table) rows.items) }
    ensures fault { IfErr result (IsGap (rows_of table)) }
{
    table.once();
    let left = table.into_rows(alloc)?;
    let mut rows = Vec::with_capacity(alloc, left.len())?;
    for (number, row) in left {
        add(&mut rows, number, row)?;
    }
    Ok(rows)
}

// Copies of the rows of a table in the order of their numbers, or that these have a gap.
fn copied_in_order<K: NumberKind, V: Copied>(
    alloc: Global,
    table: &Table<Number<K>, V>,
) -> Result<Vec<V>, ChangeFault>
    ensures rows { IfOk result (λ rows. AreInOrder (rows_of table.now) rows.items) }
    ensures fault { IfErr result (IsGap (rows_of table.now)) }
{
    let left = table.rows(alloc)?;
    let mut rows = Vec::with_capacity(alloc, left.len())?;
    for (number, row) in left {
        add(&mut rows, *number, row.copied(alloc)?)?;
    }
    Ok(rows)
}

// Adds the row of the next number, or tells that it is that of another one.
fn add<K: NumberKind, V: Drop>(
    rows: &mut Vec<V>,
    number: Number<K>,
    row: V,
) -> Result<(), ChangeFault>
    ensures added { OnOk result (AddsNext rows.old.items number row rows.new.items) }
    ensures fault { IfErr result (IsNotNext rows.old.items number) }
{
    if number.get() as usize != rows.len() + 1 {
        return Err(ChangeFault::Gap);
    }
    match rows.push(row) {
        Ok(()) => Ok(()),
        Err(_) => Err(ChangeFault::Memory),
    }
}
