//! The one row of the desk.
ghost use Rattle.std.specs.Prelude.{pos};
ghost use Rattle.review_sql_tables.proofs.{TextsOfChanges.update_desk, TextsOfLookups.find_desk};
ghost use Rattle.review_sql_records.specs.{Forms.desk, Laws.desk_table};
ghost use Rattle.review_sql_tables.specs.declared.texts.TheConstants as texts;

use crate::rows::DeskRow;
use review_sql_tables::bound::Bound;
use review_sql_tables::columns::number_at;
use review_sql_tables::table::{Lookup, Record, Rewritten, Sql, Writes};
use review_sql_tables::texts;
use sqlite::{Error, Row};
use std::alloc::{AllocError, Global};

/// The row of the desk.
pub struct Desk;

impl Lookup for Desk {
    type Key = ();

    type Item = DeskRow;

    const SQL: Sql = Sql(texts::FIND_DESK);

    ghost SQL = { texts.FIND_DESK.now };

    ghost search = { desk };

    fn bind<'a>(_key: &'a ()) -> Result<Bound<'a>, Error> {
        Ok(Bound::new())
    }

    fn read(_alloc: Global, row: &Row) -> Result<Option<DeskRow>, AllocError> {
        let (Some(version), Some(requests)) = (number_at(row, 0), number_at(row, 1)) else {
            return Ok(None);
        };
        Ok(Some(DeskRow { version, requests }))
    }

    ghost asks = { λ _. find_desk };
}

impl Record for Desk {
    type Key = ();

    type Item = DeskRow;

    ghost table = { desk_table };

    fn writes() -> Writes {
        Writes::replaces(texts::INSERT_DESK, texts::DELETE_DESK)
    }

    fn bind_key<'a>(_key: &'a ()) -> Result<Bound<'a>, Error> {
        Ok(Bound::new())
    }

    fn bind_row<'a>(
        _alloc: Global,
        _key: &'a (),
        row: &'a DeskRow,
        _buffer: &'a mut String,
    ) -> Result<Bound<'a>, Error> {
        let values = Bound::new().large(row.version)?;
        values.large(row.requests)
    }
}

impl Rewritten for Desk {
    const UPDATE: Sql = Sql(texts::UPDATE_DESK);

    ghost UPDATE = { texts.UPDATE_DESK.now };

    ghost updates = { λ _ d. update_desk (pos d.version) (pos d.requests) };
}
