//! The votes on changes.
ghost use Rattle.{std.specs.Prelude.pos, review_sql_tables.proofs.TextsOfLookups.find_votes};
ghost use Rattle.review_sql_change_records.specs.Forms.{change_votes, votes};
ghost use Rattle.review_sql_change_records.specs.Laws.{vote_table, votes_of_change};
ghost use Rattle.review_sql_tables.specs.declared.texts.TheConstants as texts;

use crate::values::{vote_at, vote_value};
use review_core_rules::{Vote, VoteKey};
use review_sql_records::names::{name_at, numbered_at, stored_number};
use review_sql_tables::bound::Bound;
use review_sql_tables::fronts::Front;
use review_sql_tables::table::{Lookup, Record, Sql, Writes};
use review_sql_tables::texts;
use review_words::ChangeNo;
use sqlite::{Error, Row};
use std::alloc::{AllocError, Global};

/// The votes on a change, by patch set, label and account.
pub struct Votes;

impl Lookup for Votes {
    type Key = ChangeNo;

    type Item = (VoteKey, Vote);

    const SQL: Sql = Sql(texts::FIND_VOTES);

    ghost SQL = { texts.FIND_VOTES.now };

    ghost search = { change_votes };

    fn bind<'a>(key: &'a ChangeNo) -> Result<Bound<'a>, Error> {
        Ok(Bound::new().number(key.get()))
    }

    fn read(alloc: Global, row: &Row) -> Result<Option<(VoteKey, Vote)>, AllocError> {
        let (Some(patch), Some(account), Some(vote)) = (
            numbered_at(row, 0),
            numbered_at(row, 2),
            vote_at(row, 3),
        ) else {
            return Ok(None);
        };
        let Some(label) = name_at(alloc, row, 1)? else {
            return Ok(None);
        };
        let key = VoteKey {
            patch,
            label,
            account,
        };
        Ok(Some((key, vote)))
    }

    ghost asks = { λ change. find_votes (pos change) };
}

impl Front for Votes {
    type Part = VoteKey;

    type Rest = Vote;

    ghost whole = { votes };

    ghost lawful = { votes_of_change };
}

impl Record for Votes {
    type Key = (ChangeNo, VoteKey);

    type Item = Vote;

    ghost table = { vote_table };

    fn writes() -> Writes {
        Writes::replaces(texts::INSERT_VOTE, texts::DELETE_VOTE)
    }

    fn bind_key<'a>(key: &'a (ChangeNo, VoteKey)) -> Result<Bound<'a>, Error> {
        let (change, patch) = (stored_number(key.0), stored_number(key.1.patch));
        let account = stored_number(key.1.account);
        let values = Bound::new().number(change).number(patch);
        Ok(values.text(key.1.label.as_str()).number(account))
    }

    fn bind_row<'a>(
        _alloc: Global,
        key: &'a (ChangeNo, VoteKey),
        row: &'a Vote,
        _buffer: &'a mut String,
    ) -> Result<Bound<'a>, Error> {
        let values = Votes::bind_key(key)?;
        Ok(values.signed(vote_value(*row)))
    }
}
