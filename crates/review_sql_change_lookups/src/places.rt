//! The last place that a change joined a branch at is looked up.
ghost use Rattle.std.specs.Prelude.{◌≡◌, true, false, Some, None, IfOk};
ghost use Rattle.{sqlite.specs.Held.state, sqlite_trees.specs.Tree.Trees};
ghost use Rattle.review_sql_tables.specs.{Ran.Looks, Search.HasGreatest, Search.row_at};
ghost use Rattle.review_machine_rows.specs.declared.rows.BranchKey.{BranchKey};
ghost use Rattle.review_sql_change_records.specs.Forms.{change_places, headers};
ghost use Rattle.{review_sql_lookups.specs.Loads.Sees, review_sql_change_lookups.specs.Joins.IsHeaderAt};
ghost use Rattle.review_machine_rows.specs.declared.rows.Want.TheVariants as want;

use review_core_rules::Header;
use review_machine_rows::{BranchKey, Found};
use review_sql_change_records::headers::{Headers, LastJoined};
use review_sql_lookups::Sight;
use review_sql_tables::greatest::find_greatest;
use review_sql_tables::reads::find;
use review_words::{BranchName, ChangeNo, ProjectName};
use sqlite::{Alter, Error, Transaction};
use std::alloc::Global;

/// Whether what was found is the header of a change for the branch, at the place in it.
pub fn is_placed(
    project: &ProjectName,
    branch: &BranchName,
    place: u64,
    found: &Option<Option<Header>>,
) -> bool
    ensures is { result ≡ true → IsHeaderAt found.now project.now branch.now place }
    ensures other { result ≡ false → IsHeaderAt found.now project.now branch.now place → ⊥ }
{
    match found {
        Some(Some(header)) => {
            header.project.as_str() == project.as_str()
                && header.branch.as_str() == branch.as_str()
                && u64::from(header.place) == place
        }
        Some(None) | None => false,
    }
}

fn tell_last_joined(
    branch: &BranchKey,
    change: ChangeNo,
    place: u32,
    found: Option<Option<Header>>,
) -> Sight
    ensures { (db : Trees) → HasGreatest change_places 8 branch.now db (Some (Some (change, place))) → found ≡ row_at headers db change → Sees (want.LastJoined branch.now) db result }
{
    let _change = change;
    if !is_placed(&branch.project, &branch.branch, u64::from(place), &found) {
        return Sight::Damaged;
    }
    Sight::Found(Found::Number(u64::from(place)))
}

fn none_joined() -> Sight
    ensures { (branch : BranchKey) (db : Trees) → HasGreatest change_places 8 branch db None → Sees (want.LastJoined branch) db result }
{
    Sight::Found(Found::Number(0))
}

/// The last place that a change joined a branch at. The change with the greatest place is looked up first, and then its header.
pub fn find_last_joined<S: Alter>(
    tx: &mut Transaction<'_, S>,
    alloc: Global,
    branch: &BranchKey,
) -> Result<Sight, Error>
    ensures same_reference { tx.new.conn.ghost_name ≡ tx.old.conn.ghost_name }
    ensures looks { Looks (Sees (want.LastJoined branch.now)) (state S.Store tx.old.conn.now) (state S.Store tx.new.conn.now) result }
{
    let found = find_greatest::<LastJoined, S>(tx, alloc, branch)?;
    match found {
        Some(Some(last)) => {
            let header = find::<Headers, S>(tx, alloc, &last.0)?;
            Ok(tell_last_joined(branch, last.0, last.1, header))
        }
        Some(None) => Ok(Sight::Damaged),
        None => Ok(none_joined()),
    }
}
