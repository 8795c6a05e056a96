//! What a look-up finds is read, whatever the table.
ghost use Rattle.std.specs.Prelude.{◌≡◌, option_map, IfOk};
ghost use Rattle.sqlite.specs.Held.{state};
ghost use Rattle.review_sql_tables.specs.{Ran.Looks, Search.HasOne, Search.only, Search.row_at, Search.AreFound};
ghost use Rattle.review_sql_tables.specs.inner.Words.{first_as, WereRead};

use crate::table::{Lookup, select};
use sqlite::{Alter, Error, Row, Transaction};
use std::alloc::{AllocError, Global};

// The one row, if there is one.
fn read_one<L: Lookup>(alloc: Global, rows: &[Row]) -> Result<Option<Option<L::Item>>, AllocError>
    ensures { IfOk result (λ found. found ≡ only L.search.read rows.now) }
{
    if rows.len() > 1 {
        return Ok(Some(None));
    }
    match rows.first() {
        Some(row) => Ok(Some(L::read(alloc, row)?)),
        None => Ok(None),
    }
}

// The first row, if there is one.
fn read_any<L: Lookup>(alloc: Global, rows: &[Row]) -> Result<Option<Option<L::Item>>, AllocError>
    ensures { IfOk result (λ found. found ≡ first_as L.search.read rows.now) }
{
    match rows.first() {
        Some(row) => Ok(Some(L::read(alloc, row)?)),
        None => Ok(None),
    }
}

// All rows, if they are rows of the table.
fn read_all<L: Lookup>(alloc: Global, rows: &[Row]) -> Result<Option<Vec<L::Item>>, AllocError>
    ensures { IfOk result (λ found. WereRead L.search.read rows.now (option_map (λ items. items.items) found)) }
{
    let mut items = Vec::new(alloc);
    for row in rows {
        let Some(item) = L::read(alloc, row)? else {
            return Ok(None);
        };
        items.push(item)?;
    }
    Ok(Some(items))
}

/// What a table has at a key: nothing, or a row; none for that where it is odd, which it is where it does not read as a row of the table,
/// or where there are several.
pub fn find<L: Lookup, S: Alter>(
    tx: &mut Transaction<'_, S>,
    alloc: Global,
    key: &L::Key,
) -> Result<Option<Option<L::Item>>, Error>
    ensures same_reference { tx.new.conn.ghost_name ≡ tx.old.conn.ghost_name }
    ensures looks { Looks (λ db found. found ≡ row_at L.search db key.now) (state S.Store tx.old.conn.now) (state S.Store tx.new.conn.now) result }
{
    let rows = select::<L, S>(tx, key)?;
    Ok(read_one::<L>(alloc, &rows)?)
}

/// All that a look-up finds, in any order, or none where a row of it is odd.
pub fn find_all<L: Lookup, S: Alter>(
    tx: &mut Transaction<'_, S>,
    alloc: Global,
    key: &L::Key,
) -> Result<Option<Vec<L::Item>>, Error>
    ensures same_reference { tx.new.conn.ghost_name ≡ tx.old.conn.ghost_name }
    ensures looks { Looks (λ db found. AreFound L.search db key.now (option_map (λ items. items.items) found)) (state S.Store tx.old.conn.now) (state S.Store tx.new.conn.now) result }
{
    let rows = select::<L, S>(tx, key)?;
    Ok(read_all::<L>(alloc, &rows)?)
}

/// One of the rows that a look-up finds, or that it finds none; none for it where it is odd.
pub fn find_any<L: Lookup, S: Alter>(
    tx: &mut Transaction<'_, S>,
    alloc: Global,
    key: &L::Key,
) -> Result<Option<Option<L::Item>>, Error>
    ensures same_reference { tx.new.conn.ghost_name ≡ tx.old.conn.ghost_name }
    ensures looks { Looks (λ db found. HasOne L.search key.now db found) (state S.Store tx.old.conn.now) (state S.Store tx.new.conn.now) result }
{
    let rows = select::<L, S>(tx, key)?;
    Ok(read_any::<L>(alloc, &rows)?)
}
