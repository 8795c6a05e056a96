//! The changes that joined a branch are looked up.
ghost use Rattle.std.specs.Prelude.{◌≡◌, ◌<◌, ℕ, Some, IfOk};
ghost use Rattle.{sqlite.specs.Held.state, sqlite_trees.specs.Tree.Trees};
ghost use Rattle.review_sql_tables.specs.{Ran.Looks, Search.HasGreatest, Search.row_at};
ghost use Rattle.review_machine_rows.specs.{Known.HaveJoined, Known.IsCurrent, declared.rows.BranchKey.BranchKey};
ghost use Rattle.review_sql_change_records.specs.Forms.{change_places, changes_at, headers, patch_numbers, patches};
ghost use Rattle.review_sql_lookups.specs.{Loads.IfTold, Loads.Sees, Tables.tables_at};
ghost use Rattle.review_sql_change_lookups.specs.Joins.{IsLastPlace, IsOnlyAt, TellsAt, TellsCurrent};
ghost use Rattle.review_machine_rows.specs.declared.rows.Want.TheVariants as want;

use crate::places::is_placed;
use review_core_rules::{Header, PatchRow};
use review_machine_rows::{BranchKey, Found, PlaceKey};
use review_sql_change_records::branches::ChangeAt;
use review_sql_change_records::headers::{Headers, LastJoined};
use review_sql_change_records::patches::{LastPatch, PatchSets};
use review_sql_lookups::Sight;
use review_sql_tables::greatest::find_greatest;
use review_sql_tables::reads::find;
use review_words::{ChangeNo, JoinedChange, Listed, PatchNo};
use sqlite::{Alter, Error, Transaction};
use std::alloc::{AllocError, Global};

// The patch set with the greatest number; none where it is odd, as in no history.
fn current(number: PatchNo, found: Option<Option<PatchRow>>) -> Option<PatchRow>
    ensures { (n : ℕ) (db : Trees) → HasGreatest patch_numbers 2 n db (Some (Some number)) → found ≡ row_at patches db (n, number) → IfTold db (IsCurrent (tables_at db).row n) result }
{
    let _number = number;
    match found {
        Some(patch) => patch,
        None => None,
    }
}

// The current patch set of a change; none where it has no patch set, or where a row of it is odd.
fn find_current<S: Alter>(
    tx: &mut Transaction<'_, S>,
    alloc: Global,
    change: ChangeNo,
) -> Result<Option<PatchRow>, Error>
    ensures same_reference { tx.new.conn.ghost_name ≡ tx.old.conn.ghost_name }
    ensures looks { Looks (TellsCurrent change) (state S.Store tx.old.conn.now) (state S.Store tx.new.conn.now) result }
{
    let last = find_greatest::<LastPatch, S>(tx, alloc, &change)?;
    let Some(number) = last else {
        return Ok(None);
    };
    let Some(number) = number else {
        return Ok(None);
    };
    let found = find::<PatchSets, S>(tx, alloc, &(change, number))?;
    Ok(current(number, found))
}

// The change of a place with its current commit; none where a row of it is odd, it is not for the branch at the place, or it has no patch set, as in no history.
fn joined_at(
    key: &PlaceKey,
    change: ChangeNo,
    header: Option<Option<Header>>,
    patch: Option<PatchRow>,
) -> Option<JoinedChange>
    requires { 0 < key.now.place }
    ensures { (db : Trees) → Some (Some change) ≡ row_at changes_at db key.now → header ≡ row_at headers db change → TellsCurrent change db patch → IfTold db (IsOnlyAt key.now db) result }
{
    if !is_placed(&key.project, &key.branch, key.place, &header) {
        return None;
    }
    match patch {
        Some(patch) => Some(JoinedChange {
            change,
            commit: patch.commit,
        }),
        None => None,
    }
}

// The change at a place of a branch with its current commit; none where there is none, or where a row of it is odd.
fn find_at<S: Alter>(
    tx: &mut Transaction<'_, S>,
    alloc: Global,
    key: &PlaceKey,
) -> Result<Option<JoinedChange>, Error>
    requires { 0 < key.now.place }
    ensures same_reference { tx.new.conn.ghost_name ≡ tx.old.conn.ghost_name }
    ensures looks { Looks (TellsAt key.now) (state S.Store tx.old.conn.now) (state S.Store tx.new.conn.now) result }
{
    let found = find::<ChangeAt, S>(tx, alloc, key)?;
    let Some(change) = found else {
        return Ok(None);
    };
    let Some(change) = change else {
        return Ok(None);
    };
    let header = find::<Headers, S>(tx, alloc, &change)?;
    let patch = find_current(tx, alloc, change)?;
    Ok(joined_at(key, change, header, patch))
}

// The last place at which a change of the branch stands, or 0; none where that is odd, as in no history.
fn last_place(found: Option<Option<(ChangeNo, u32)>>) -> Option<u64>
    ensures { (key : BranchKey) (db : Trees) → HasGreatest change_places 8 key db found → IfTold db (IsLastPlace key db) result }
{
    match found {
        Some(Some(last)) => Some(u64::from(last.1)),
        Some(None) => None,
        None => Some(0),
    }
}

// The key of a place of a branch, before the first one.
fn before_first(branch: &BranchKey) -> Result<PlaceKey, AllocError>
    ensures { IfOk result (λ key. (key.project ≡ branch.now.project) × (key.branch ≡ branch.now.branch)) }
{
    Ok(PlaceKey {
        project: branch.project.copy()?,
        branch: branch.branch.copy()?,
        place: 0,
    })
}

// The changes that joined a branch; none where a row of one is odd or a place before the last has none, as in no history. The last place is looked up first,
// and then the change of each.
fn find_joins<S: Alter>(
    tx: &mut Transaction<'_, S>,
    alloc: Global,
    branch: &BranchKey,
) -> Result<Option<Listed<JoinedChange>>, Error>
    ensures same_reference { tx.new.conn.ghost_name ≡ tx.old.conn.ghost_name }
    ensures looks { Looks (λ db found. IfTold db (HaveJoined (tables_at db).row branch.now) found) (state S.Store tx.old.conn.now) (state S.Store tx.new.conn.now) result }
{
    let found = find_greatest::<LastJoined, S>(tx, alloc, branch)?;
    let Some(last) = last_place(found) else {
        return Ok(None);
    };
    let mut key = before_first(branch)?;
    let mut joined = Vec::new(alloc);
    for before in 0..last {
        key.place = before + 1;
        let known = find_at(tx, alloc, &key)?;
        let Some(change) = known else {
            return Ok(None);
        };
        joined.push(change)?;
    }
    Ok(Some(Listed::from_vec(joined)))
}

fn tell_joined(found: Option<Listed<JoinedChange>>) -> Sight
    ensures { (branch : BranchKey) (db : Trees) → IfTold db (HaveJoined (tables_at db).row branch) found → Sees (want.Joined branch) db result }
{
    match found {
        Some(joined) => Sight::Found(Found::Joins(joined)),
        None => Sight::Damaged,
    }
}

/// The changes that joined a branch, in the order of their places.
pub fn find_joined<S: Alter>(
    tx: &mut Transaction<'_, S>,
    alloc: Global,
    branch: &BranchKey,
) -> Result<Sight, Error>
    ensures same_reference { tx.new.conn.ghost_name ≡ tx.old.conn.ghost_name }
    ensures looks { Looks (Sees (want.Joined branch.now)) (state S.Store tx.old.conn.now) (state S.Store tx.new.conn.now) result }
{
    let found = find_joins(tx, alloc, branch)?;
    Ok(tell_joined(found))
}
