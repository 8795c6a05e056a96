//! The row with the greatest value of a column is looked up.
ghost use Rattle.std.specs.Prelude.{◌≡◌, IfOk};
ghost use Rattle.sqlite.specs.Held.{state};
ghost use Rattle.review_sql_tables.specs.{Ran.Looks, Search.HasGreatest, Texts.values_of};
ghost use Rattle.review_sql_tables.specs.inner.Words.{first_as, FindsGreatest};

use crate::bound::Bound;
use crate::table::Sql;
use sqlite::{Alter, Error, Row, Transaction};
use std::alloc::{AllocError, Global};

/// A look-up of the row with the greatest value of a column.
pub trait Greatest {
    ghost use Rattle.std.specs.Prelude.{ℕ, List};
    ghost use Rattle.review_sql_tables.specs.{Search.Search, Texts.Asks, Texts.last_where};

    /// The values that are asked for.
    type Key;

    /// What the row reads as.
    type Item: Drop;

    /// The text that asks for it.
    const SQL: Sql;

    /// The text.
    ghost SQL: { List ℕ };

    /// The table, its columns, and how the row is read.
    ghost search: { Search Self.Key Self.Item };

    /// The column.
    ghost place: { ℕ };

    /// The values that the text is asked with.
    fn bind<'a>(key: &'a Self::Key) -> Result<Bound<'a>, Error>
        ensures { IfOk result (λ values. values ≡ values_of (search.at key.now)) };

    /// The row as it reads; none where it is no row of the table.
    fn read(alloc: Global, row: &Row) -> Result<Option<Self::Item>, AllocError>
        ensures { IfOk result (λ item. item ≡ search.read row.now) };

    /// The text asks for the row with the greatest value among those that have these values.
    ghost asks: { (key : Self.Key) → Asks SQL (last_where search.tree (search.at key) search.columns place) };
}

// The row, as the store has it, or none.
fn select_last<G: Greatest, S: Alter>(
    tx: &mut Transaction<'_, S>,
    key: &G::Key,
) -> Result<Vec<Row>, Error>
    ensures same_reference { tx.new.conn.ghost_name ≡ tx.old.conn.ghost_name }
    ensures looks { Looks (λ db rows. FindsGreatest G.search G.place key.now db rows.items) (state S.Store tx.old.conn.now) (state S.Store tx.new.conn.now) result }
{
    let values = G::bind(key)?;
    tx.query_all(G::SQL.text(), values.as_slice())
}

// The first row as it reads, if there is one.
fn read_first<G: Greatest>(
    alloc: Global,
    rows: &[Row],
) -> Result<Option<Option<G::Item>>, AllocError>
    ensures { IfOk result (λ found. found ≡ first_as G.search.read rows.now) }
{
    match rows.first() {
        Some(row) => Ok(Some(G::read(alloc, row)?)),
        None => Ok(None),
    }
}

/// The row with the greatest value of the column, or that there is no row; none for it where it is odd.
pub fn find_greatest<G: Greatest, S: Alter>(
    tx: &mut Transaction<'_, S>,
    alloc: Global,
    key: &G::Key,
) -> Result<Option<Option<G::Item>>, Error>
    ensures same_reference { tx.new.conn.ghost_name ≡ tx.old.conn.ghost_name }
    ensures looks { Looks (λ db found. HasGreatest G.search G.place key.now db found) (state S.Store tx.old.conn.now) (state S.Store tx.new.conn.now) result }
{
    let rows = select_last::<G, S>(tx, key)?;
    Ok(read_first::<G>(alloc, &rows)?)
}
