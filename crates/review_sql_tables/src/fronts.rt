//! The rows of an owner are looked up and changed, whatever the table.
ghost use Rattle.std.specs.Prelude.{◌≡◌, option_map};
ghost use Rattle.{sqlite.specs.Held.state, review_table.specs.Rows.rows_of};
ghost use Rattle.review_sql_tables.specs.{Ran.Inside, Ran.Looks, Search.AreParts, Search.SetsParts};

use crate::changes::change;
use crate::table::{Lookup, Record, select};
use review_table::{Key, RowEdit, Table as Rows};
use sqlite::{Alter, Error, Transaction};
use std::alloc::Global;

/// A look-up of all rows of an owner, each with the rest of its key.
pub trait Front: Lookup<Item = (<Self as Front>::Part, <Self as Front>::Rest)> {
    ghost use Rattle.std.specs.Prelude.{◌≡◌};
    ghost use Rattle.review_sql_tables.specs.Search.{IsFront, Search};

    /// The rest of a key.
    type Part: Key;

    /// What a row has beside its key.
    type Rest: Drop;

    /// The look-up of one row.
    ghost whole: { Search (Self.Key × Self.Part) Self.Rest };

    /// The rows are those of the keys that begin with the owner.
    ghost lawful: { IsFront Self.Part.cmp Self.search whole };
}

/// All rows of an owner by the rest of their keys; none where a row of it is odd, or two have one key.
pub fn find_parts<F: Front, S: Alter>(
    tx: &mut Transaction<'_, S>,
    alloc: Global,
    owner: &F::Key,
) -> Result<Option<Rows<F::Part, F::Rest>>, Error>
    ensures same_reference { tx.new.conn.ghost_name ≡ tx.old.conn.ghost_name }
    ensures looks { Looks (λ db found. AreParts F.Part.cmp F.search F.whole owner.now db (option_map (λ t. rows_of t) found)) (state S.Store tx.old.conn.now) (state S.Store tx.new.conn.now) result }
{
    let rows = select::<F, S>(tx, owner)?;
    let mut table = Rows::new(alloc);
    for row in &rows {
        let Some(item) = F::read(alloc, row)? else {
            return Ok(None);
        };
        let (part, item) = item;
        if table.get(&part).is_some() {
            return Ok(None);
        }
        table.put(part, item)?;
    }
    Ok(Some(table))
}

/// Makes the changes of an owner's rows, the last first, so that the first of a key stands.
pub fn change_parts<T: Front + Record<Key = (<T as Lookup>::Key, <T as Front>::Part)>, S: Alter>(
    tx: &mut Transaction<'_, S>,
    alloc: Global,
    owner: &<T as Lookup>::Key,
    changes: &[RowEdit<T::Part, <T as Record>::Item>],
) -> Result<(), Error>
where
    <T as Lookup>::Key: Copy,
    ensures same_reference { tx.new.conn.ghost_name ≡ tx.old.conn.ghost_name }
    ensures ran { Inside (SetsParts T.table.search owner.now changes.now) (state S.Store tx.old.conn.now) (state S.Store tx.new.conn.now) result }
{
    let mut left = changes.len();
    while left > 0 {
        left -= 1;
        let edit = &changes[left];
        let key = (*owner, edit.key.copy()?);
        change::<T, S>(tx, alloc, &key, &edit.row)?;
    }
    Ok(())
}
