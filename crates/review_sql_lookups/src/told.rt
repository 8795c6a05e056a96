//! Look-ups of one row, whatever the table: what was found is told, and looked up once for all.
ghost use Rattle.std.specs.Prelude.{◌≡◌};
ghost use Rattle.{sqlite.specs.Held.state, review_sql_tables.specs.Ran.Looks, review_sql_lookups.specs.Loads.Sees};

use crate::Sight;
use review_sql_tables::greatest::{Greatest, find_greatest};
use review_sql_tables::reads::find;
use review_sql_tables::table::Lookup;
use sqlite::{Alter, Error, Transaction};
use std::alloc::Global;

/// A look-up by the one row of a key.
pub trait Told: Lookup {
    ghost use Rattle.std.specs.Prelude.{◌≡◌};
    ghost use Rattle.{sqlite_trees.specs.Tree.Trees, review_sql_tables.specs.Search.row_at};
    ghost use Rattle.{review_machine_rows.specs.declared.rows.Want.Want, review_sql_lookups.specs.Loads.Sees};

    /// What is asked by a key.
    ghost asked: { Self.Key → Want };

    /// How the look-up ends, where this was found.
    fn tell(found: Option<Option<Self::Item>>) -> Sight
        ensures { (key : Self.Key) (db : Trees) → found ≡ row_at Self.search db key → Sees (asked key) db result };
}

/// A look-up by the row with the greatest value of a column.
pub trait ToldByGreatest: Greatest {
    ghost use Rattle.std.specs.Prelude.{◌≡◌};
    ghost use Rattle.{sqlite_trees.specs.Tree.Trees, review_sql_tables.specs.Search.HasGreatest};
    ghost use Rattle.{review_machine_rows.specs.declared.rows.Want.Want, review_sql_lookups.specs.Loads.Sees};

    /// What is asked by a key.
    ghost asked: { Self.Key → Want };

    /// How the look-up ends, where this was found.
    fn tell(found: Option<Option<Self::Item>>) -> Sight
        ensures { (key : Self.Key) (db : Trees) → HasGreatest Self.search Self.place key db found → Sees (asked key) db result };
}

/// What the one row of a key tells.
pub fn find_told<L: Told, S: Alter>(
    tx: &mut Transaction<'_, S>,
    alloc: Global,
    key: &L::Key,
) -> Result<Sight, Error>
    ensures same_reference { tx.new.conn.ghost_name ≡ tx.old.conn.ghost_name }
    ensures looks { Looks (Sees (L.asked key.now)) (state S.Store tx.old.conn.now) (state S.Store tx.new.conn.now) result }
{
    let found = find::<L, S>(tx, alloc, key)?;
    Ok(L::tell(found))
}

/// What the row with the greatest value tells.
pub fn find_greatest_told<G: ToldByGreatest, S: Alter>(
    tx: &mut Transaction<'_, S>,
    alloc: Global,
    key: &G::Key,
) -> Result<Sight, Error>
    ensures same_reference { tx.new.conn.ghost_name ≡ tx.old.conn.ghost_name }
    ensures looks { Looks (Sees (G.asked key.now)) (state S.Store tx.old.conn.now) (state S.Store tx.new.conn.now) result }
{
    let found = find_greatest::<G, S>(tx, alloc, key)?;
    Ok(G::tell(found))
}
