//! The stored requests.
ghost use Rattle.std.specs.Prelude.{pos, ◌≡◌, Some};
ghost use Rattle.{sqlite.specs.Held.state, review_sql_tables.proofs.TextsOfLookups.find_answer};
ghost use Rattle.review_sql_tables.specs.{Content.RemovesWhere, Ran.Inside, Ran.Opens, Search.SetsRow};
ghost use Rattle.review_machine_rows.specs.Rows.{kept_row};
ghost use Rattle.review_sql_records.specs.Forms.{answers, is_of_lower, kept_answer, request_key};
ghost use Rattle.review_sql_records.specs.Laws.{answer_table};
ghost use Rattle.review_sql_tables.specs.declared.texts.TheConstants as texts;

use crate::names::{epoch_number, stored_number};
use crate::rows::{Answered, RequestKey, Text};
use review_machine_rows::Kept;
use review_sql_tables::bound::Bound;
use review_sql_tables::changes::set;
use review_sql_tables::columns::{number_at, text_at};
use review_sql_tables::table::{Lookup, Record, Sql, Writes};
use review_sql_tables::texts;
use review_words::Epoch;
use sqlite::{Alter, Error, Row, Transaction};
use std::alloc::{AllocError, Global};
use std::marker::Model;

/// The stored requests, by their identities.
pub struct Answers;

impl Lookup for Answers {
    type Key = RequestKey;

    type Item = Answered;

    const SQL: Sql = Sql(texts::FIND_ANSWER);

    ghost SQL = { texts.FIND_ANSWER.now };

    ghost search = { answers };

    fn bind<'a>(key: &'a RequestKey) -> Result<Bound<'a>, Error> {
        let values = Bound::new()
            .number(key.caller.get())
            .number(key.epoch.get());
        Ok(values.text(key.id.as_str()))
    }

    fn read(alloc: Global, row: &Row) -> Result<Option<Answered>, AllocError> {
        let (Some(request), Some(content), Some(reply)) = (
            number_at(row, 0),
            text_at(row, 1),
            text_at(row, 2),
        ) else {
            return Ok(None);
        };
        Ok(Some(Answered {
            request,
            content: Text::copy(alloc, content)?,
            reply: Text::copy(alloc, reply)?,
        }))
    }

    ghost asks = { λ i. find_answer (pos i.caller) (pos i.epoch) i.id };
}

/// The identity of a request that is to be stored, in the request. Contracts see the key.
#[derive(Drop)]
struct KeptKey<'k> {
    kept: &'k Kept,
}

impl<'k> Model for KeptKey<'k> {
    ghost use Rattle.review_machine_rows.specs.Rows.{kept_row};
    ghost use Rattle.review_sql_records.specs.{Forms.request_key, declared.rows.RequestKey.RequestKey};

    ghost Value = { RequestKey };

    ghost view = { λ k. request_key (kept_row k.kept.now).identity };
}

/// What is stored of a request beside its identity, in the request. Contracts see the row.
#[derive(Drop)]
struct KeptAnswer<'k> {
    kept: &'k Kept,
}

impl<'k> Model for KeptAnswer<'k> {
    ghost use Rattle.review_sql_records.specs.{Forms.kept_answer, declared.rows.Answered.Answered};

    ghost Value = { Answered };

    ghost view = { λ a. kept_answer a.kept.now };
}

// Requests are put in as they are, and none of their texts is copied.
impl<'k> Record for KeptAnswer<'k> {
    type Key = KeptKey<'k>;

    type Item = KeptAnswer<'k>;

    ghost table = { answer_table };

    fn writes() -> Writes
        ensures { result ≡ answer_table.writes }
    {
        Writes::puts_in(texts::INSERT_ANSWER, texts::DELETE_ANSWER)
    }

    fn bind_key<'a>(key: &'a KeptKey<'k>) -> Result<Bound<'a>, Error> {
        let kept = key.kept;
        let values = Bound::new().number(stored_number(kept.caller));
        Ok(
            values
                .number(epoch_number(kept.epoch))
                .text(kept.id.as_str()),
        )
    }

    fn bind_row<'a>(
        _alloc: Global,
        key: &'a KeptKey<'k>,
        row: &'a KeptAnswer<'k>,
        _buffer: &'a mut String,
    ) -> Result<Bound<'a>, Error> {
        let kept = row.kept;
        let values = KeptAnswer::bind_key(key)?.large(kept.request)?;
        Ok(values.text(kept.content.as_str()).text(kept.reply.as_str()))
    }
}

/// Stores a request in the place of what its identity has.
pub fn put<S: Alter>(tx: &mut Transaction<'_, S>, alloc: Global, kept: &Kept) -> Result<(), Error>
    ensures same_reference { tx.new.conn.ghost_name ≡ tx.old.conn.ghost_name }
    ensures ran { Inside (SetsRow answers (request_key (kept_row kept.now).identity) (Some (kept_answer kept.now))) (state S.Store tx.old.conn.now) (state S.Store tx.new.conn.now) result }
    ensures open { Opens (state S.Store tx.old.conn.now) (state S.Store tx.new.conn.now) result }
{
    set::<KeptAnswer, S>(tx, alloc, &KeptKey { kept }, &KeptAnswer { kept })
}

/// Takes away the stored requests of all identities whose epoch is lower than this one. A row that is of no identity, as one with a negative caller, stays.
pub fn remove_below<S: Alter>(tx: &mut Transaction<'_, S>, epoch: Epoch) -> Result<usize, Error>
    ensures same_reference { tx.new.conn.ghost_name ≡ tx.old.conn.ghost_name }
    ensures ran { Inside (RemovesWhere answers.tree (is_of_lower epoch)) (state S.Store tx.old.conn.now) (state S.Store tx.new.conn.now) result }
    ensures open { Opens (state S.Store tx.old.conn.now) (state S.Store tx.new.conn.now) result }
{
    let values = Bound::new().number(epoch.get());
    tx.execute(texts::DELETE_ANSWERS_BELOW, values.as_slice())
}
