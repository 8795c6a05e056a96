//! The least open epoch.
ghost use Rattle.std.specs.Prelude.{pos};
ghost use Rattle.review_sql_tables.proofs.{TextsOfChanges.update_epochs, TextsOfLookups.find_epochs};
ghost use Rattle.review_sql_records.specs.{Forms.epochs, Laws.epochs_table};
ghost use Rattle.review_sql_tables.specs.declared.texts.TheConstants as texts;

use crate::names::{epoch_at, epoch_number};
use review_sql_tables::bound::Bound;
use review_sql_tables::table::{Lookup, Record, Rewritten, Sql, Writes};
use review_sql_tables::texts;
use review_words::Epoch;
use sqlite::{Error, Row};
use std::alloc::{AllocError, Global};

/// The one row of the epochs, which says the least open one.
pub struct Epochs;

impl Lookup for Epochs {
    type Key = ();

    type Item = Epoch;

    const SQL: Sql = Sql(texts::FIND_EPOCHS);

    ghost SQL = { texts.FIND_EPOCHS.now };

    ghost search = { epochs };

    fn bind<'a>(_key: &'a ()) -> Result<Bound<'a>, Error> {
        Ok(Bound::new())
    }

    fn read(_alloc: Global, row: &Row) -> Result<Option<Epoch>, AllocError> {
        Ok(epoch_at(row, 0))
    }

    ghost asks = { λ _. find_epochs };
}

impl Record for Epochs {
    type Key = ();

    type Item = Epoch;

    ghost table = { epochs_table };

    fn writes() -> Writes {
        Writes::replaces(texts::INSERT_EPOCHS, texts::DELETE_EPOCHS)
    }

    fn bind_key<'a>(_key: &'a ()) -> Result<Bound<'a>, Error> {
        Ok(Bound::new())
    }

    fn bind_row<'a>(
        _alloc: Global,
        _key: &'a (),
        row: &'a Epoch,
        _buffer: &'a mut String,
    ) -> Result<Bound<'a>, Error> {
        Ok(Bound::new().number(epoch_number(*row)))
    }
}

impl Rewritten for Epochs {
    const UPDATE: Sql = Sql(texts::UPDATE_EPOCHS);

    ghost UPDATE = { texts.UPDATE_EPOCHS.now };

    ghost updates = { λ _ least. update_epochs (pos least) };
}
