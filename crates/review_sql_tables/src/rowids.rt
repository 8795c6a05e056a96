//! Whether the rows of a table have rowids of their own. On it rests that a row that is taken away takes no other with it.
ghost use Rattle.std.specs.{Bool.Decides, List.AllByRecursion, List.IsDistinct, Ordering.int_eq};
ghost use Rattle.std.specs.Prelude.{◌≡◌, ◌<◌, ℕ, List, map, option_map, slice_index_or, IfOk};
ghost use Rattle.{sqlite.specs.Held.state, review_sql_tables.specs.Content.AreApart};
ghost use Rattle.review_sql_tables.specs.{Desk.desk_schema, Ran.Looks, declared.texts.TheConstants.ROW_IDS};
ghost use Rattle.review_sql_tables.specs.inner.Words.{AreIds, AreOwn, IsIdOf, firsts, table_at, FindsIds};

use crate::texts;
use sqlite::types::ValueRef;
use sqlite::{Alter, Error, Row, Transaction};
use std::alloc::{AllocError, Global};

// The integer of the first column.
fn read_id(row: &Row) -> Option<i64>
    ensures { IsIdOf row.now result }
{
    match row.get_ref(0) {
        Ok(ValueRef::Int(id)) => Some(id),
        _ => None,
    }
}

// The integers of the first column, unless one is none.
fn read_ids(alloc: Global, rows: &[Row]) -> Result<Option<Vec<i64>>, AllocError>
    ensures { IfOk result (λ ids. AreIds rows.now (option_map (λ v. v.items) ids)) }
{
    let mut ids = Vec::new(alloc);
    for row in rows {
        let Some(id) = read_id(row) else {
            return Ok(None);
        };
        ids.push(id)?;
    }
    Ok(Some(ids))
}

fn are_distinct(ids: Vec<i64>) -> bool
    ensures { Decides result (IsDistinct int_eq ids.items) }
{
    let mut ids = ids;
    let count = ids.len();
    ids.sort_unstable();
    ids.dedup();
    ids.len() == count
}

// Whether the first column has integers, each once.
fn are_own(alloc: Global, rows: &[Row]) -> Result<bool, AllocError>
    ensures { IfOk result (λ is. Decides is (AreOwn (firsts rows.now))) }
{
    match read_ids(alloc, rows)? {
        Some(ids) => Ok(are_distinct(ids)),
        None => Ok(false),
    }
}

// The text that reads the rowids of a table of the list.
fn ids_text(at: usize) -> &'static str
    requires { at < 13 }
    ensures { (d : List ℕ) → result.now ≡ slice_index_or (map (λ t. t.now) ROW_IDS) at d }
{
    texts::ROW_IDS[at]
}

// The rowids of a table of the list, in any order.
fn select_ids<S: Alter>(tx: &mut Transaction<'_, S>, at: usize) -> Result<Vec<Row>, Error>
    requires { at < 13 }
    ensures same_reference { tx.new.conn.ghost_name ≡ tx.old.conn.ghost_name }
    ensures looks { Looks (λ db rows. AllByRecursion (λ t. FindsIds t.tree db rows.items) (table_at at)) (state S.Store tx.old.conn.now) (state S.Store tx.new.conn.now) result }
{
    tx.query_all(ids_text(at), &[])
}

// Whether the rows of a table of the list have rowids of their own.
fn are_apart<S: Alter>(tx: &mut Transaction<'_, S>, alloc: Global, at: usize) -> Result<bool, Error>
    requires { at < 13 }
    ensures same_reference { tx.new.conn.ghost_name ≡ tx.old.conn.ghost_name }
    ensures looks { Looks (λ db is. Decides is (AllByRecursion (λ t. AreApart (db t.tree)) (table_at at))) (state S.Store tx.old.conn.now) (state S.Store tx.new.conn.now) result }
{
    let rows = select_ids(tx, at)?;
    Ok(are_own(alloc, &rows)?)
}

/// Whether the rows of each table have rowids of their own.
pub fn are_all_apart<S: Alter>(tx: &mut Transaction<'_, S>, alloc: Global) -> Result<bool, Error>
    ensures same_reference { tx.new.conn.ghost_name ≡ tx.old.conn.ghost_name }
    ensures looks { Looks (λ db is. Decides is (AllByRecursion (λ t. AreApart (db t.tree)) desk_schema.tables)) (state S.Store tx.old.conn.now) (state S.Store tx.new.conn.now) result }
{
    let mut are = are_apart(tx, alloc, 0)?;
    for at in 1..13 {
        are = are & are_apart(tx, alloc, at)?;
    }
    Ok(are)
}
