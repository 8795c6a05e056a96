//! What look-ups find by what the shelf knows of counts, with no statement.
ghost use Rattle.std.specs.Prelude.{◌≡◌, None, IfSome};
ghost use Rattle.{sqlite_trees.specs.Tree.Trees, review_machine_rows.specs.Known.group_of};
ghost use Rattle.review_sql_lookups.specs.{Loads.AreBounded, Loads.Sees, Tables.tables_at};
ghost use Rattle.review_machine_rows.specs.declared.rows.Want.TheVariants as want;
ghost use Rattle.review_machine_rows.specs.declared.rows.Counted.TheVariants as counted;

use crate::Sight;
use crate::counts::Counts;
use review_machine_rows::{Counted, Found, Want};
use review_words::ProjectName;

/// What a look-up finds, where what the shelf knows of counts tells it.
pub fn find_known(want: &Want, counts: &Counts) -> Option<Sight>
    ensures told { IfSome result (λ s. (db : Trees) → AreBounded counts.now (tables_at db) → Sees want.now db s) }
    ensures plain { IfSome result (λ s. group_of want.now ≡ None) }
{
    match want {
        Want::Requests => known_requests(counts),
        Want::Room(counted) => known_room(counted, counts),
        _ => None,
    }
}

// How many requests were ever stored.
fn known_requests(counts: &Counts) -> Option<Sight>
    ensures { IfSome result (λ s. (db : Trees) → AreBounded counts.now (tables_at db) → Sees (want.Requests) db s) }
{
    let requests = counts.stored_requests()?;
    Some(Sight::Found(Found::Number(requests)))
}

// Whether there may be one more of what is counted.
fn known_room(counted: &Counted, counts: &Counts) -> Option<Sight>
    ensures { IfSome result (λ s. (db : Trees) → AreBounded counts.now (tables_at db) → Sees (want.Room counted.now) db s) }
{
    match counted {
        Counted::Projects => known_room_for_projects(counts),
        Counted::BasesOf(project) => known_room_for_bases(project, counts),
    }
}

// Whether there may be one more project.
fn known_room_for_projects(counts: &Counts) -> Option<Sight>
    ensures { IfSome result (λ s. (db : Trees) → AreBounded counts.now (tables_at db) → Sees (want.Room counted.Projects) db s) }
{
    let is = counts.room_for_projects()?;
    Some(Sight::Found(Found::IsSo(is)))
}

// Whether there may be one more base of a project.
fn known_room_for_bases(project: &ProjectName, counts: &Counts) -> Option<Sight>
    ensures { IfSome result (λ s. (db : Trees) → AreBounded counts.now (tables_at db) → Sees (want.Room (counted.BasesOf project.now)) db s) }
{
    let is = counts.room_for_bases(project)?;
    Some(Sight::Found(Found::IsSo(is)))
}
