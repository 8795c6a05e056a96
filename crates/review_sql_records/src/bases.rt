//! The bases of branches, by their places.
ghost use Rattle.std.specs.Prelude.{pos, ◌≡◌, ◌∷◌, [], length, Some};
ghost use Rattle.{sqlite.specs.Held.state, sqlite_value.specs.declared.value.Value.TheVariants.Text};
ghost use Rattle.review_sql_tables.proofs.TextsOfLookups.{find_base, find_base_commit, find_branch, find_last_place};
ghost use Rattle.review_sql_tables.specs.{Ran.Looks, Search.as_counted, Search.rows_at, inner.Words.ShowsCount};
ghost use Rattle.review_sql_records.specs.Forms.{base_commits, base_parts, base_places, bases, branch_bases};
ghost use Rattle.review_sql_records.specs.Laws.{base_table, bases_of_branch};
ghost use Rattle.review_sql_tables.specs.declared.texts.TheConstants as texts;
ghost use Rattle.review_sql_tables.specs.Desk as table;

use crate::counted::read_count;
use crate::names::{name_at, place_at};
use crate::rows::PlaceNo;
use review_machine_rows::{Base, BranchKey, PlaceKey};
use review_sql_tables::bound::Bound;
use review_sql_tables::columns::number_at;
use review_sql_tables::fronts::Front;
use review_sql_tables::greatest::Greatest;
use review_sql_tables::table::{Lookup, Record, Sql, Writes};
use review_sql_tables::texts;
use review_words::{CommitName, ProjectName};
use sqlite::{Alter, Error, Row, Transaction};
use std::alloc::{AllocError, Global};

/// The commits of bases, by their places.
pub struct Bases;

impl Lookup for Bases {
    type Key = PlaceKey;

    type Item = CommitName;

    const SQL: Sql = Sql(texts::FIND_BASE);

    ghost SQL = { texts.FIND_BASE.now };

    ghost search = { bases };

    fn bind<'a>(key: &'a PlaceKey) -> Result<Bound<'a>, Error> {
        Bound::new()
            .text(key.project.as_str())
            .text(key.branch.as_str())
            .large(key.place)
    }

    fn read(alloc: Global, row: &Row) -> Result<Option<CommitName>, AllocError> {
        name_at(alloc, row, 0)
    }

    ghost asks = { λ b. find_base b.project b.branch (pos b.place) };
}

impl Record for Bases {
    type Key = PlaceKey;

    type Item = CommitName;

    ghost table = { base_table };

    fn writes() -> Writes {
        Writes::puts_in(texts::INSERT_BASE, texts::DELETE_BASE)
    }

    fn bind_key<'a>(key: &'a PlaceKey) -> Result<Bound<'a>, Error> {
        if key.place > u64::from(u32::MAX) {
            return Err(Error::InvalidQuery);
        }
        Bases::bind(key)
    }

    fn bind_row<'a>(
        _alloc: Global,
        key: &'a PlaceKey,
        row: &'a CommitName,
        _buffer: &'a mut String,
    ) -> Result<Bound<'a>, Error> {
        let values = Bases::bind_key(key)?;
        Ok(values.text(row.as_str()))
    }
}

/// The places of a commit in a branch.
pub struct BaseCommits;

impl Lookup for BaseCommits {
    type Key = Base;

    type Item = u64;

    const SQL: Sql = Sql(texts::FIND_BASE_COMMIT);

    ghost SQL = { texts.FIND_BASE_COMMIT.now };

    ghost search = { base_commits };

    fn bind<'a>(key: &'a Base) -> Result<Bound<'a>, Error> {
        let values = Bound::new().text(key.project.as_str());
        Ok(values.text(key.branch.as_str()).text(key.commit.as_str()))
    }

    fn read(_alloc: Global, row: &Row) -> Result<Option<u64>, AllocError> {
        Ok(number_at(row, 0))
    }

    ghost asks = { λ b. find_base_commit b.project b.branch b.commit };
}

/// The bases of a branch, by their places.
pub struct BranchBases;

impl Lookup for BranchBases {
    type Key = BranchKey;

    type Item = (PlaceNo, CommitName);

    const SQL: Sql = Sql(texts::FIND_BRANCH);

    ghost SQL = { texts.FIND_BRANCH.now };

    ghost search = { branch_bases };

    fn bind<'a>(key: &'a BranchKey) -> Result<Bound<'a>, Error> {
        let values = Bound::new().text(key.project.as_str());
        Ok(values.text(key.branch.as_str()))
    }

    fn read(alloc: Global, row: &Row) -> Result<Option<(PlaceNo, CommitName)>, AllocError> {
        Ok(place_at(row, 0).zip(name_at(alloc, row, 1)?))
    }

    ghost asks = { λ b. find_branch b.project b.branch };
}

impl Front for BranchBases {
    type Part = PlaceNo;

    type Rest = CommitName;

    ghost whole = { base_parts };

    ghost lawful = { bases_of_branch };
}

/// The last place of a branch's bases.
pub struct LastPlace;

impl Greatest for LastPlace {
    type Key = BranchKey;

    type Item = u64;

    const SQL: Sql = Sql(texts::FIND_LAST_PLACE);

    ghost SQL = { texts.FIND_LAST_PLACE.now };

    ghost search = { base_places };

    ghost place = { 3 };

    fn bind<'a>(key: &'a BranchKey) -> Result<Bound<'a>, Error> {
        let values = Bound::new().text(key.project.as_str());
        Ok(values.text(key.branch.as_str()))
    }

    fn read(_alloc: Global, row: &Row) -> Result<Option<u64>, AllocError> {
        Ok(number_at(row, 0))
    }

    ghost asks = { λ b. find_last_place b.project b.branch };
}

// The row that says how many bases a project has.
fn select_count<S: Alter>(
    tx: &mut Transaction<'_, S>,
    project: &ProjectName,
) -> Result<Vec<Row>, Error>
    ensures same_reference { tx.new.conn.ghost_name ≡ tx.old.conn.ghost_name }
    ensures looks { Looks (λ db rows. ShowsCount (rows_at ((1, Text project.now) ∷ []) (db table.bases.tree)) rows.items) (state S.Store tx.old.conn.now) (state S.Store tx.new.conn.now) result }
{
    let values = Bound::new().text(project.as_str());
    tx.query_all(texts::COUNT_BASES, values.as_slice())
}

/// How many bases a project has; none where the store tells no number.
pub fn count<S: Alter>(
    tx: &mut Transaction<'_, S>,
    project: &ProjectName,
) -> Result<Option<u64>, Error>
    ensures same_reference { tx.new.conn.ghost_name ≡ tx.old.conn.ghost_name }
    ensures looks { Looks (λ db count. count ≡ Some (as_counted (length (rows_at ((1, Text project.now) ∷ []) (db table.bases.tree))))) (state S.Store tx.old.conn.now) (state S.Store tx.new.conn.now) result }
{
    let rows = select_count(tx, project)?;
    Ok(read_count(&rows))
}
