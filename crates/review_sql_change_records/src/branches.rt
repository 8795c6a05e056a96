//! The changes of a branch, by their places, and the branch of a change.
ghost use Rattle.std.specs.Prelude.{pos};
ghost use Rattle.review_sql_tables.proofs.TextsOfLookups.{find_change_at, find_change_branch};
ghost use Rattle.review_sql_change_records.specs.Forms.{change_branches, changes_at};
ghost use Rattle.review_sql_tables.specs.declared.texts.TheConstants as texts;

use review_machine_rows::{BranchKey, PlaceKey};
use review_sql_records::names::{name_at, numbered_at};
use review_sql_tables::bound::Bound;
use review_sql_tables::table::{Lookup, Sql};
use review_sql_tables::texts;
use review_words::ChangeNo;
use sqlite::{Error, Row};
use std::alloc::{AllocError, Global};

/// The numbers of changes, by their places in a branch.
pub struct ChangeAt;

impl Lookup for ChangeAt {
    type Key = PlaceKey;

    type Item = ChangeNo;

    const SQL: Sql = Sql(texts::FIND_CHANGE_AT);

    ghost SQL = { texts.FIND_CHANGE_AT.now };

    ghost search = { changes_at };

    fn bind<'a>(key: &'a PlaceKey) -> Result<Bound<'a>, Error> {
        Bound::new()
            .text(key.project.as_str())
            .text(key.branch.as_str())
            .large(key.place)
    }

    fn read(_alloc: Global, row: &Row) -> Result<Option<ChangeNo>, AllocError> {
        Ok(numbered_at(row, 0))
    }

    ghost asks = { λ k. find_change_at k.project k.branch (pos k.place) };
}

/// The branches of changes, by the numbers of these: what of a header tells whom it concerns, also where the rest of it is odd.
pub struct ChangeBranches;

impl Lookup for ChangeBranches {
    type Key = ChangeNo;

    type Item = BranchKey;

    const SQL: Sql = Sql(texts::FIND_CHANGE_BRANCH);

    ghost SQL = { texts.FIND_CHANGE_BRANCH.now };

    ghost search = { change_branches };

    fn bind<'a>(key: &'a ChangeNo) -> Result<Bound<'a>, Error> {
        Ok(Bound::new().number(key.get()))
    }

    fn read(alloc: Global, row: &Row) -> Result<Option<BranchKey>, AllocError> {
        let Some(project) = name_at(alloc, row, 0)? else {
            return Ok(None);
        };
        let Some(branch) = name_at(alloc, row, 1)? else {
            return Ok(None);
        };
        Ok(Some(BranchKey { project, branch }))
    }

    ghost asks = { λ number. find_change_branch (pos number) };
}
