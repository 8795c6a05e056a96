//! Whether a commit is a base of a branch.
ghost use Rattle.std.specs.Prelude.{◌≡◌, true, false, Some, None, IfOk};
ghost use Rattle.{sqlite.specs.Held.state, sqlite_trees.specs.Tree.Trees};
ghost use Rattle.review_sql_tables.specs.{Ran.Looks, Search.HasOne, Search.row_at};
ghost use Rattle.review_machine_rows.specs.{Known.IsBaseOrNot, declared.rows.Base.Base};
ghost use Rattle.review_sql_records.specs.Forms.{base_commits, bases};
ghost use Rattle.review_sql_lookups.specs.{Loads.IfTold, Loads.Sees, Tables.tables_at};
ghost use Rattle.review_machine_rows.specs.declared.rows.Want.TheVariants as want;

use review_machine_rows::{Base, Found, PlaceKey};
use review_sql_lookups::Sight;
use review_sql_records::bases::{BaseCommits, Bases};
use review_sql_tables::reads::{find, find_any};
use review_words::CommitName;
use sqlite::{Alter, Error, Transaction};
use std::alloc::{AllocError, Global};

// Whether a commit stands at a place.
fn stands(found: &Option<Option<CommitName>>, commit: &CommitName) -> bool
    ensures is { result ≡ true → found.now ≡ Some (Some commit.now) }
    ensures other { result ≡ false → found.now ≡ Some (Some commit.now) → ⊥ }
{
    match found {
        Some(Some(other)) => other.as_str() == commit.as_str(),
        _ => false,
    }
}

fn stands_at(base: &Base, place: u64, found: Option<Option<CommitName>>) -> Option<bool>
    ensures { (db : Trees) → HasOne base_commits base.now db (Some (Some place)) → found ≡ row_at bases db (record { project = base.now.project; branch = base.now.branch; place = place }) → IfTold db (IsBaseOrNot (tables_at db).row base.now) result }
{
    let _place = place;
    if stands(&found, &base.commit) {
        return Some(true);
    }
    None
}

fn stands_nowhere(base: &Base) -> Option<bool>
    ensures { (db : Trees) → HasOne base_commits base.now db None → IfTold db (IsBaseOrNot (tables_at db).row base.now) result }
{
    let _base = base;
    Some(false)
}

fn place_key(base: &Base, place: u64) -> Result<PlaceKey, AllocError>
    ensures { IfOk result (λ k. k ≡ record { project = base.now.project; branch = base.now.branch; place = place }) }
{
    Ok(PlaceKey {
        project: base.project.copy()?,
        branch: base.branch.copy()?,
        place,
    })
}

/// Whether a commit is a base of a branch; none where the tables are those of no history. The commit is looked up first, and then the place that it has.
pub fn is_base<S: Alter>(
    tx: &mut Transaction<'_, S>,
    alloc: Global,
    base: &Base,
) -> Result<Option<bool>, Error>
    ensures same_reference { tx.new.conn.ghost_name ≡ tx.old.conn.ghost_name }
    ensures looks { Looks (λ db is. IfTold db (IsBaseOrNot (tables_at db).row base.now) is) (state S.Store tx.old.conn.now) (state S.Store tx.new.conn.now) result }
{
    let found = find_any::<BaseCommits, S>(tx, alloc, base)?;
    match found {
        Some(Some(place)) => {
            let key = place_key(base, place)?;
            let stored = find::<Bases, S>(tx, alloc, &key)?;
            Ok(stands_at(base, place, stored))
        }
        Some(None) => Ok(None),
        None => Ok(stands_nowhere(base)),
    }
}

fn tell_base(is: Option<bool>) -> Sight
    ensures { (base : Base) (db : Trees) → IfTold db (IsBaseOrNot (tables_at db).row base) is → Sees (want.Base base) db result }
{
    match is {
        Some(is) => Sight::Found(Found::IsSo(is)),
        None => Sight::Damaged,
    }
}

/// Whether a commit is a base of a branch.
pub fn find_base<S: Alter>(
    tx: &mut Transaction<'_, S>,
    alloc: Global,
    base: &Base,
) -> Result<Sight, Error>
    ensures same_reference { tx.new.conn.ghost_name ≡ tx.old.conn.ghost_name }
    ensures looks { Looks (Sees (want.Base base.now)) (state S.Store tx.old.conn.now) (state S.Store tx.new.conn.now) result }
{
    let is = is_base(tx, alloc, base)?;
    Ok(tell_base(is))
}
