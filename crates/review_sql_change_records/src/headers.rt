//! The headers of changes.
ghost use Rattle.std.specs.Prelude.{IfErr, IfOk, OnOk, pos, true, ◌≡◌, ◌≤◌, ◌^◌};
ghost use Rattle.{review_words.specs.States.state_name, review_sql_tables.proofs.TextsOfChanges.update_change};
ghost use Rattle.review_sql_tables.proofs.TextsOfLookups.{find_change, find_last_change, find_last_joined};
ghost use Rattle.review_sql_change_records.specs.Forms.{change_numbers, change_places, flag_number, header_form, headers};
ghost use Rattle.review_sql_change_records.specs.Laws.{header_table};
ghost use Rattle.review_sql_tables.specs.declared.texts.TheConstants as texts;

use crate::values::{flag_at, flag_number, state_at};
use review_core_rules::Header;
use review_machine_rows::BranchKey;
use review_sql_records::names::{name_at, numbered_at, small, small_at, stored_number};
use review_sql_tables::bound::Bound;
use review_sql_tables::columns::number_at;
use review_sql_tables::greatest::Greatest;
use review_sql_tables::table::{Lookup, Record, Rewritten, Sql, Writes};
use review_sql_tables::texts;
use review_words::ChangeNo;
use sqlite::{Error, Row};
use std::alloc::{AllocError, Global};

/// The headers, by the numbers of their changes.
pub struct Headers;

impl Lookup for Headers {
    type Key = ChangeNo;

    type Item = Header;

    const SQL: Sql = Sql(texts::FIND_CHANGE);

    ghost SQL = { texts.FIND_CHANGE.now };

    ghost search = { headers };

    fn bind<'a>(key: &'a ChangeNo) -> Result<Bound<'a>, Error> {
        Ok(Bound::new().number(key.get()))
    }

    fn read(alloc: Global, row: &Row) -> Result<Option<Header>, AllocError> {
        let (Some(owner), Some(state), Some(wip)) = (
            numbered_at(row, 3),
            state_at(row, 4),
            flag_at(row, 5),
        ) else {
            return Ok(None);
        };
        let (Some(place), Some(updated)) = (small_at(row, 6), number_at(row, 7)) else {
            return Ok(None);
        };
        let Some(project) = name_at(alloc, row, 0)? else {
            return Ok(None);
        };
        let Some(branch) = name_at(alloc, row, 1)? else {
            return Ok(None);
        };
        let Some(subject) = name_at(alloc, row, 2)? else {
            return Ok(None);
        };
        Ok(Some(Header {
            project,
            branch,
            subject,
            owner,
            state,
            wip,
            place,
            updated,
        }))
    }

    ghost asks = { λ number. find_change (pos number) };
}

impl Record for Headers {
    type Key = ChangeNo;

    type Item = Header;

    ghost table = { header_table };

    fn writes() -> Writes {
        Writes::replaces(texts::INSERT_CHANGE, texts::DELETE_CHANGE)
    }

    fn bind_key<'a>(key: &'a ChangeNo) -> Result<Bound<'a>, Error> {
        Ok(Bound::new().number(stored_number(*key)))
    }

    fn bind_row<'a>(
        _alloc: Global,
        key: &'a ChangeNo,
        row: &'a Header,
        _buffer: &'a mut String,
    ) -> Result<Bound<'a>, Error>
        ensures values { IfOk result (λ values. values ≡ header_form.values key.now row.now) }
        ensures formed { OnOk result (header_form.is_key key.now ≡ true) }
        ensures good { OnOk result (header_form.is_good row.now ≡ true) }
        ensures large { IfErr result (λ e. 2 ^ 63 ≤ row.now.updated) }
    {
        let state: &'a str = row.state.name();
        let named = Bound::new()
            .number(stored_number(*key))
            .text(row.project.as_str())
            .text(row.branch.as_str())
            .text(row.subject.as_str());
        let stated = named.number(stored_number(row.owner)).text(state);
        Ok(
            stated
                .number(flag_number(row.wip))
                .number(small(row.place))
                .large(row.updated)?,
        )
    }
}

impl Rewritten for Headers {
    const UPDATE: Sql = Sql(texts::UPDATE_CHANGE);

    ghost UPDATE = { texts.UPDATE_CHANGE.now };

    ghost updates = { λ number h. update_change (pos number) h.project h.branch h.subject (pos h.owner) (state_name h.state) (pos (flag_number h.wip)) (pos h.place) (pos h.updated) };
}

/// The greatest number of a change.
pub struct LastChange;

impl Greatest for LastChange {
    type Key = ();

    type Item = u64;

    const SQL: Sql = Sql(texts::FIND_LAST_CHANGE);

    ghost SQL = { texts.FIND_LAST_CHANGE.now };

    ghost search = { change_numbers };

    ghost place = { 0 };

    fn bind<'a>(_key: &'a ()) -> Result<Bound<'a>, Error> {
        Ok(Bound::new())
    }

    fn read(_alloc: Global, row: &Row) -> Result<Option<u64>, AllocError> {
        Ok(number_at(row, 0))
    }

    ghost asks = { λ _. find_last_change };
}

/// The change with the greatest place of a branch, and its place.
pub struct LastJoined;

impl Greatest for LastJoined {
    type Key = BranchKey;

    type Item = (ChangeNo, u32);

    const SQL: Sql = Sql(texts::FIND_LAST_JOINED);

    ghost SQL = { texts.FIND_LAST_JOINED.now };

    ghost search = { change_places };

    ghost place = { 8 };

    fn bind<'a>(key: &'a BranchKey) -> Result<Bound<'a>, Error> {
        let values = Bound::new().text(key.project.as_str());
        Ok(values.text(key.branch.as_str()))
    }

    fn read(_alloc: Global, row: &Row) -> Result<Option<(ChangeNo, u32)>, AllocError> {
        Ok(numbered_at(row, 0).zip(small_at(row, 1)))
    }

    ghost asks = { λ b. find_last_joined b.project b.branch };
}
