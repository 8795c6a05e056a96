//! The attention sets of changes.
ghost use Rattle.{std.specs.Prelude.pos, review_sql_tables.proofs.TextsOfLookups.find_calls};
ghost use Rattle.review_sql_change_records.specs.Forms.{attention_entries, change_attention};
ghost use Rattle.review_sql_change_records.specs.Laws.{attention_of_change, attention_table};
ghost use Rattle.review_sql_tables.specs.declared.texts.TheConstants as texts;

use review_core_rules::AttentionEntry;
use review_sql_records::names::{name_at, numbered_at, stored_number};
use review_sql_tables::bound::Bound;
use review_sql_tables::columns::number_at;
use review_sql_tables::fronts::Front;
use review_sql_tables::table::{Lookup, Record, Sql, Writes};
use review_sql_tables::texts;
use review_words::{AccountNo, ChangeNo};
use sqlite::{Error, Row};
use std::alloc::{AllocError, Global};

/// The attention set of a change, by accounts.
pub struct AttentionEntries;

impl Lookup for AttentionEntries {
    type Key = ChangeNo;

    type Item = (AccountNo, AttentionEntry);

    const SQL: Sql = Sql(texts::FIND_CALLS);

    ghost SQL = { texts.FIND_CALLS.now };

    ghost search = { change_attention };

    fn bind<'a>(key: &'a ChangeNo) -> Result<Bound<'a>, Error> {
        Ok(Bound::new().number(key.get()))
    }

    fn read(alloc: Global, row: &Row) -> Result<Option<(AccountNo, AttentionEntry)>, AllocError> {
        let Some(reason) = name_at(alloc, row, 1)? else {
            return Ok(None);
        };
        let (Some(account), Some(request)) = (numbered_at(row, 0), number_at(row, 2)) else {
            return Ok(None);
        };
        Ok(Some((account, AttentionEntry { reason, request })))
    }

    ghost asks = { λ change. find_calls (pos change) };
}

impl Front for AttentionEntries {
    type Part = AccountNo;

    type Rest = AttentionEntry;

    ghost whole = { attention_entries };

    ghost lawful = { attention_of_change };
}

impl Record for AttentionEntries {
    type Key = (ChangeNo, AccountNo);

    type Item = AttentionEntry;

    ghost table = { attention_table };

    fn writes() -> Writes {
        Writes::puts_in(texts::INSERT_ATTENTION, texts::DELETE_ATTENTION)
    }

    fn bind_key<'a>(key: &'a (ChangeNo, AccountNo)) -> Result<Bound<'a>, Error> {
        let (change, account) = (stored_number(key.0), stored_number(key.1));
        Ok(Bound::new().number(change).number(account))
    }

    fn bind_row<'a>(
        _alloc: Global,
        key: &'a (ChangeNo, AccountNo),
        row: &'a AttentionEntry,
        _buffer: &'a mut String,
    ) -> Result<Bound<'a>, Error> {
        let values = AttentionEntries::bind_key(key)?;
        values.text(row.reason.as_str()).large(row.request)
    }
}
