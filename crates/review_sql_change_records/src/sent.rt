//! The patch sets that have a commit.
ghost use Rattle.{review_sql_tables.proofs.TextsOfLookups.find_sent, review_sql_change_records.specs.Forms.sent};
ghost use Rattle.review_sql_tables.specs.declared.texts.TheConstants as texts;

use review_sql_records::names::numbered_at;
use review_sql_tables::bound::Bound;
use review_sql_tables::table::{Lookup, Sql};
use review_sql_tables::texts;
use review_words::{ChangeNo, CommitName, PatchNo};
use sqlite::{Error, Row};
use std::alloc::{AllocError, Global};

/// The patch sets that have a commit, each by its change and its number.
pub struct Sent;

impl Lookup for Sent {
    type Key = CommitName;

    type Item = (ChangeNo, PatchNo);

    const SQL: Sql = Sql(texts::FIND_SENT);

    ghost SQL = { texts.FIND_SENT.now };

    ghost search = { sent };

    fn bind<'a>(key: &'a CommitName) -> Result<Bound<'a>, Error> {
        Ok(Bound::new().text(key.as_str()))
    }

    fn read(_alloc: Global, row: &Row) -> Result<Option<(ChangeNo, PatchNo)>, AllocError> {
        Ok(numbered_at(row, 0).zip(numbered_at(row, 1)))
    }

    ghost asks = { find_sent };
}
