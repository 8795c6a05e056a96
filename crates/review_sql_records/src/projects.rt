//! The projects and their files.
ghost use Rattle.std.specs.Prelude.{◌≡◌, [], true, Some, IfOk, length};
ghost use Rattle.{sqlite.specs.Held.state, sqlite_value.specs.Order.column};
ghost use Rattle.review_sql_tables.proofs.TextsOfLookups.{find_project, find_project_name};
ghost use Rattle.review_sql_tables.specs.{Ran.Looks, Search.text_in, Search.as_counted, Search.rows_at};
ghost use Rattle.review_sql_tables.specs.inner.Words.{ShowsCount};
ghost use Rattle.review_sql_records.specs.Forms.{parent_text, project_names, projects, is_parent, stored_parent};
ghost use Rattle.review_sql_records.specs.Laws.{project_table};
ghost use Rattle.review_sql_tables.specs.declared.texts.TheConstants as texts;
ghost use Rattle.review_sql_tables.specs.Desk as table;

use crate::counted::read_count;
use crate::names::name_at;
use review_machine_rows::StoredFile;
use review_sql_tables::bound::Bound;
use review_sql_tables::columns::text_at;
use review_sql_tables::table::{Lookup, Record, Sql, Writes};
use review_sql_tables::texts;
use review_words::{FileText, ProjectName};
use sqlite::{Alter, Error, Row, Transaction};
use std::alloc::{AllocError, Global};

/// The files of the projects.
pub struct Projects;

// The parent that a column names; none where it is no text, or one that is no name of a project.
fn parent_at(alloc: Global, row: &Row, at: usize) -> Result<Option<Option<ProjectName>>, AllocError>
    ensures { IfOk result (λ parent. parent ≡ stored_parent (text_in (column row.now at))) }
{
    let Some(text) = text_at(row, at) else {
        return Ok(None);
    };
    if text.is_empty() {
        return Ok(Some(None));
    }
    Ok(name_at(alloc, row, at)?.map(Some))
}

// A parent as it is stored.
fn parent_text(parent: &Option<ProjectName>) -> &str
    ensures text { result.now ≡ parent_text parent.now }
    ensures good { is_parent parent.now ≡ true }
{
    match parent {
        Some(name) => name.as_str(),
        None => "",
    }
}

impl Lookup for Projects {
    type Key = ProjectName;

    type Item = StoredFile;

    const SQL: Sql = Sql(texts::FIND_PROJECT);

    ghost SQL = { texts.FIND_PROJECT.now };

    ghost search = { projects };

    fn bind<'a>(key: &'a ProjectName) -> Result<Bound<'a>, Error> {
        Ok(Bound::new().text(key.as_str()))
    }

    fn read(alloc: Global, row: &Row) -> Result<Option<StoredFile>, AllocError> {
        let Some(text) = text_at(row, 0) else {
            return Ok(None);
        };
        let Some(parent) = parent_at(alloc, row, 1)? else {
            return Ok(None);
        };
        let text = FileText::from_str(alloc, text)?;
        Ok(Some(StoredFile { text, parent }))
    }

    ghost asks = { find_project };
}

impl Record for Projects {
    type Key = ProjectName;

    type Item = StoredFile;

    ghost table = { project_table };

    fn writes() -> Writes {
        Writes::replaces(texts::INSERT_PROJECT, texts::DELETE_PROJECT)
    }

    fn bind_key<'a>(key: &'a ProjectName) -> Result<Bound<'a>, Error> {
        Projects::bind(key)
    }

    fn bind_row<'a>(
        _alloc: Global,
        key: &'a ProjectName,
        row: &'a StoredFile,
        _buffer: &'a mut String,
    ) -> Result<Bound<'a>, Error> {
        let values = Bound::new().text(key.as_str()).text(row.text.as_str());
        Ok(values.text(parent_text(&row.parent)))
    }
}

/// The projects without their files.
pub struct ProjectNames;

impl Lookup for ProjectNames {
    type Key = ProjectName;

    type Item = ();

    const SQL: Sql = Sql(texts::FIND_PROJECT_NAME);

    ghost SQL = { texts.FIND_PROJECT_NAME.now };

    ghost search = { project_names };

    fn bind<'a>(key: &'a ProjectName) -> Result<Bound<'a>, Error> {
        Ok(Bound::new().text(key.as_str()))
    }

    fn read(_alloc: Global, _row: &Row) -> Result<Option<()>, AllocError> {
        Ok(Some(()))
    }

    ghost asks = { find_project_name };
}

// The row that says how many projects there are.
fn select_count<S: Alter>(tx: &mut Transaction<'_, S>) -> Result<Vec<Row>, Error>
    ensures same_reference { tx.new.conn.ghost_name ≡ tx.old.conn.ghost_name }
    ensures looks { Looks (λ db rows. ShowsCount (rows_at [] (db table.projects_2.tree)) rows.items) (state S.Store tx.old.conn.now) (state S.Store tx.new.conn.now) result }
{
    tx.query_all(texts::COUNT_PROJECTS, &[])
}

/// How many projects there are; none where the store tells no number.
pub fn count<S: Alter>(tx: &mut Transaction<'_, S>) -> Result<Option<u64>, Error>
    ensures same_reference { tx.new.conn.ghost_name ≡ tx.old.conn.ghost_name }
    ensures looks { Looks (λ db count. count ≡ Some (as_counted (length (db table.projects_2.tree)))) (state S.Store tx.old.conn.now) (state S.Store tx.new.conn.now) result }
{
    let rows = select_count(tx)?;
    Ok(read_count(&rows))
}
