//! What is looked up of projects, of the bases of their branches, and of the desk.
ghost use Rattle.std.specs.Ordering.{nat_cmp};
ghost use Rattle.std.specs.Prelude.{◌≡◌, ◌∷◌, [], true, false, ℕ, List, Some, None, option_map, IfOk, length, nat_lt};
ghost use Rattle.{sqlite.specs.Held.state, sqlite_trees.specs.Tree.Trees};
ghost use Rattle.{sqlite_value.specs.declared.value.Value.TheVariants.Text, review_table.specs.Rows.rows_of};
ghost use Rattle.review_sql_tables.specs.Ran.{Looks};
ghost use Rattle.review_sql_tables.specs.Search.{AreParts, as_counted, HasGreatest, HasOne, row_at, rows_at};
ghost use Rattle.review_machine_rows.specs.Limits.{most_bases, most_projects};
ghost use Rattle.review_machine_rows.specs.Rows.{BasesOf, Projects as ProjectCount};
ghost use Rattle.review_machine_rows.specs.declared.rows.BranchKey.{BranchKey};
ghost use Rattle.review_sql_records.specs.Forms.{base_commits, branch_bases, base_parts, base_places, bases, desk, epochs, project_names, projects};
ghost use Rattle.review_sql_lookups.specs.{Loads.SeesBounded, Loads.Sees, Loads.IsOrdered, Tables.tables_at};
ghost use Rattle.review_machine_rows.specs.declared.rows.Want.TheVariants as want;
ghost use Rattle.review_machine_rows.specs.declared.rows.Counted.TheVariants as counted;

use crate::Sight;
use crate::counts::{Counts, MOST_BASES, MOST_PROJECTS};
use crate::plain::{last, whole};
use crate::told::{Told, ToldByGreatest};
use review_machine_rows::{BranchKey, Found, StoredFile};
use review_sql_records::bases::{self, BranchBases, LastPlace};
use review_sql_records::desk::Desk;
use review_sql_records::epochs::Epochs;
use review_sql_records::projects::{self, ProjectNames, Projects};
use review_sql_records::rows::{DeskRow, PlaceNo};
use review_sql_tables::fronts::find_parts;
use review_sql_tables::reads::find;
use review_table::Table;
use review_words::{Bases as DeskBases, CommitName, Epoch, ProjectName};
use sqlite::{Alter, Error, Transaction};
use std::alloc::{AllocError, Global};

// How many requests were ever stored, of which the shelf learns too.
fn tell_requests(found: Option<Option<DeskRow>>, counts: &mut Counts) -> Sight
    ensures { (db : Trees) → found ≡ row_at desk db tt → SeesBounded (want.Requests) counts.old counts.new db result }
{
    match found {
        Some(Some(row)) => {
            counts.learn_requests(row.requests);
            Sight::Found(Found::Number(row.requests))
        }
        Some(None) => Sight::Damaged,
        None => Sight::Damaged,
    }
}

/// How many requests were ever stored.
pub fn find_requests<S: Alter>(
    tx: &mut Transaction<'_, S>,
    alloc: Global,
    counts: &mut Counts,
) -> Result<Sight, Error>
    ensures same_reference { tx.new.conn.ghost_name ≡ tx.old.conn.ghost_name }
    ensures looks { Looks (SeesBounded (want.Requests) counts.old counts.new) (state S.Store tx.old.conn.now) (state S.Store tx.new.conn.now) result }
{
    let found = find::<Desk, S>(tx, alloc, &())?;
    Ok(tell_requests(found, counts))
}

// The least open epoch.
impl Told for Epochs {
    ghost asked = { λ _. want.LeastEpoch };

    fn tell(found: Option<Option<Epoch>>) -> Sight
        ensures { (u : Unit {0}) (db : Trees) → found ≡ row_at epochs db u → Sees want.LeastEpoch db result }
    {
        match found {
            Some(Some(least)) => Sight::Found(Found::Number(u64::from(least.get()))),
            Some(None) => Sight::Damaged,
            None => Sight::Damaged,
        }
    }
}

// The file of a project.
impl Told for Projects {
    ghost asked = { want.File };

    #[tactic(auto, using(crate::proofs::Telling::told_whole))]
    fn tell(found: Option<Option<StoredFile>>) -> Sight
        ensures { (project : List ℕ) (db : Trees) → found ≡ row_at projects db project → Sees (want.File project) db result }
    {
        match whole(found) {
            Ok(file) => Sight::Found(Found::Text(file)),
            Err(sight) => sight,
        }
    }
}

// Whether a project is there, without its file.
impl Told for ProjectNames {
    ghost asked = { want.Project };

    fn tell(found: Option<Option<()>>) -> Sight
        ensures { (project : List ℕ) (db : Trees) → found ≡ row_at project_names db project → Sees (want.Project project) db result }
    {
        Sight::Found(Found::IsSo(found.is_some()))
    }
}

// Whether so many projects leave room for one more, of which the shelf learns too.
fn tell_project_count(count: Option<u64>, counts: &mut Counts) -> Sight
    ensures { (db : Trees) → count ≡ Some (as_counted ((tables_at db).count ProjectCount)) → SeesBounded (want.Room counted.Projects) counts.old counts.new db result }
{
    let Some(count) = count else {
        return Sight::Damaged;
    };
    counts.learn_projects(count);
    Sight::Found(Found::IsSo(count < MOST_PROJECTS))
}

/// Whether there may be one more project, for which they are counted.
pub fn find_room_for_projects<S: Alter>(
    tx: &mut Transaction<'_, S>,
    counts: &mut Counts,
) -> Result<Sight, Error>
    ensures same_reference { tx.new.conn.ghost_name ≡ tx.old.conn.ghost_name }
    ensures looks { Looks (SeesBounded (want.Room counted.Projects) counts.old counts.new) (state S.Store tx.old.conn.now) (state S.Store tx.new.conn.now) result }
{
    let count = projects::count(tx)?;
    Ok(tell_project_count(count, counts))
}

// Whether so many bases of a project leave room for one more, of which the shelf learns too.
fn tell_base_count(project: &ProjectName, count: Option<u64>, counts: &mut Counts) -> Sight
    ensures { (db : Trees) → count ≡ Some (as_counted ((tables_at db).count (BasesOf project.now))) → SeesBounded (want.Room (counted.BasesOf project.now)) counts.old counts.new db result }
{
    let Some(count) = count else {
        return Sight::Damaged;
    };
    counts.learn_bases(project, count);
    Sight::Found(Found::IsSo(count < MOST_BASES))
}

/// Whether there may be one more base of a project, for which they are counted.
pub fn find_room_for_bases<S: Alter>(
    tx: &mut Transaction<'_, S>,
    project: &ProjectName,
    counts: &mut Counts,
) -> Result<Sight, Error>
    ensures same_reference { tx.new.conn.ghost_name ≡ tx.old.conn.ghost_name }
    ensures looks { Looks (SeesBounded (want.Room (counted.BasesOf project.now)) counts.old counts.new) (state S.Store tx.old.conn.now) (state S.Store tx.new.conn.now) result }
{
    let count = bases::count(tx, project)?;
    Ok(tell_base_count(project, count, counts))
}

// The last place of a branch's bases.
impl ToldByGreatest for LastPlace {
    ghost asked = { want.LastPlace };

    fn tell(found: Option<Option<u64>>) -> Sight
        ensures { (branch : BranchKey) (db : Trees) → HasGreatest base_places 3 branch db found → Sees (want.LastPlace branch) db result }
    {
        match last(found) {
            Some(place) => Sight::Found(Found::Number(u64::from(place))),
            None => Sight::Damaged,
        }
    }
}

fn tell_bases(alloc: Global, found: Option<Table<PlaceNo, CommitName>>) -> Sight
    ensures { (branch : BranchKey) (db : Trees) → AreParts nat_cmp branch_bases base_parts branch db (option_map (λ t. rows_of t) found) → Sees (want.Bases branch) db result }
{
    let Some(places) = found else {
        return Sight::Damaged;
    };
    match in_order(alloc, places) {
        Ok(Some(bases)) => Sight::Found(Found::Commits(bases)),
        Ok(None) => Sight::Damaged,
        Err(_) => Sight::NoMemory,
    }
}

/// The bases of a branch.
pub fn find_bases<S: Alter>(
    tx: &mut Transaction<'_, S>,
    alloc: Global,
    branch: &BranchKey,
) -> Result<Sight, Error>
    ensures same_reference { tx.new.conn.ghost_name ≡ tx.old.conn.ghost_name }
    ensures looks { Looks (Sees (want.Bases branch.now)) (state S.Store tx.old.conn.now) (state S.Store tx.new.conn.now) result }
{
    let found = find_parts::<BranchBases, S>(tx, alloc, branch)?;
    Ok(tell_bases(alloc, found))
}

// The commits of places in their order; none where a place before the last has none.
fn in_order(
    alloc: Global,
    places: Table<PlaceNo, CommitName>,
) -> Result<Option<DeskBases>, AllocError>
    ensures { IfOk result (IsOrdered (rows_of places)) }
{
    places.once();
    let mut bases = Vec::new(alloc);
    for (place, commit) in places.into_rows(alloc)? {
        if place.get() - 1 != bases.len() as u64 {
            return Ok(None);
        }
        bases.push(commit)?;
    }
    Ok(Some(DeskBases::from_vec(bases)))
}
