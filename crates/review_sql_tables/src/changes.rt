//! What a table has at a key is changed, whatever the table.
ghost use Rattle.std.specs.Prelude.{◌≡◌, Some};
ghost use Rattle.sqlite.specs.Held.{state};
ghost use Rattle.review_sql_tables.specs.{Ran.Inside, Ran.Opens, Ran.is_violation, Search.SetsRow, Search.SetsRows};

use crate::table::{Record, Rewritten, Sets, insert, remove, update};
use review_table::RowEdit;
use sqlite::{Alter, Error, ErrorCode, Transaction};
use std::alloc::Global;

// Whether an error says that a row breaks a rule of its table.
fn is_violation(error: Error) -> bool
    ensures { result ≡ is_violation error }
{
    matches!(
        error,
        Error::SqliteFailure(ErrorCode::ConstraintViolation(_))
    )
}

// Takes away what the table has at a key, and puts this row in.
fn replace<T: Record, S: Alter>(
    tx: &mut Transaction<'_, S>,
    alloc: Global,
    key: &T::Key,
    row: &T::Item,
) -> Result<(), Error>
    ensures same_reference { tx.new.conn.ghost_name ≡ tx.old.conn.ghost_name }
    ensures ran { Inside (SetsRow T.table.search key.now (Some row.now)) (state S.Store tx.old.conn.now) (state S.Store tx.new.conn.now) result }
    ensures open { Opens (state S.Store tx.old.conn.now) (state S.Store tx.new.conn.now) result }
{
    remove::<T, S>(tx, key)?;
    insert::<T, S>(tx, alloc, key, row)?;
    Ok(())
}

/// Gives a key this row. Where the key mostly has none the row is put in, and takes the place of what is there only where a rule of the table refuses
/// that; in a table in which rows are replaced, what is there is taken away first.
pub fn set<T: Record, S: Alter>(
    tx: &mut Transaction<'_, S>,
    alloc: Global,
    key: &T::Key,
    row: &T::Item,
) -> Result<(), Error>
    ensures same_reference { tx.new.conn.ghost_name ≡ tx.old.conn.ghost_name }
    ensures ran { Inside (SetsRow T.table.search key.now (Some row.now)) (state S.Store tx.old.conn.now) (state S.Store tx.new.conn.now) result }
    ensures open { Opens (state S.Store tx.old.conn.now) (state S.Store tx.new.conn.now) result }
{
    if T::writes().sets() == Sets::Replaces {
        return replace::<T, S>(tx, alloc, key, row);
    }
    match insert::<T, S>(tx, alloc, key, row) {
        Ok(_) => Ok(()),
        Err(error) if is_violation(error) => replace::<T, S>(tx, alloc, key, row),
        Err(error) => Err(error),
    }
}

/// Gives a key this row. Mostly the key has one, which gets other values at its place.
pub fn rewrite<T: Rewritten, S: Alter>(
    tx: &mut Transaction<'_, S>,
    alloc: Global,
    key: &T::Key,
    row: &T::Item,
) -> Result<(), Error>
    ensures same_reference { tx.new.conn.ghost_name ≡ tx.old.conn.ghost_name }
    ensures ran { Inside (SetsRow T.table.search key.now (Some row.now)) (state S.Store tx.old.conn.now) (state S.Store tx.new.conn.now) result }
    ensures open { Opens (state S.Store tx.old.conn.now) (state S.Store tx.new.conn.now) result }
{
    let count = update::<T, S>(tx, alloc, key, row)?;
    if count == 1 {
        return Ok(());
    }
    if count > 1 {
        return replace::<T, S>(tx, alloc, key, row);
    }
    insert::<T, S>(tx, alloc, key, row)?;
    Ok(())
}

/// Gives a key this row, or none.
pub fn change<T: Record, S: Alter>(
    tx: &mut Transaction<'_, S>,
    alloc: Global,
    key: &T::Key,
    row: &Option<T::Item>,
) -> Result<(), Error>
    ensures same_reference { tx.new.conn.ghost_name ≡ tx.old.conn.ghost_name }
    ensures ran { Inside (SetsRow T.table.search key.now row.now) (state S.Store tx.old.conn.now) (state S.Store tx.new.conn.now) result }
    ensures open { Opens (state S.Store tx.old.conn.now) (state S.Store tx.new.conn.now) result }
{
    match row {
        Some(row) => set::<T, S>(tx, alloc, key, row),
        None => {
            remove::<T, S>(tx, key)?;
            Ok(())
        }
    }
}

/// Makes the changes, the last first, so that the first of a key stands.
pub fn change_all<T: Record, S: Alter>(
    tx: &mut Transaction<'_, S>,
    alloc: Global,
    changes: &[RowEdit<T::Key, T::Item>],
) -> Result<(), Error>
    ensures same_reference { tx.new.conn.ghost_name ≡ tx.old.conn.ghost_name }
    ensures ran { Inside (SetsRows T.table.search changes.now) (state S.Store tx.old.conn.now) (state S.Store tx.new.conn.now) result }
{
    let mut left = changes.len();
    while left > 0 {
        left -= 1;
        let change = &changes[left];
        self::change::<T, S>(tx, alloc, &change.key, &change.row)?;
    }
    Ok(())
}
