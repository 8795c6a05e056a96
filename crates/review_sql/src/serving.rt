//! What is stored under an identity, looked up.
ghost use Rattle.std.specs.Prelude.{◌≡◌, false};
ghost use Rattle.{sqlite.specs.Held.state, review_sql_tables.specs.Ran.Looks, review_sql_tables.specs.Ran.Serves};
ghost use Rattle.review_sql.specs.Shelf.{IsLookedUp};

use review_sql_records::answers::Answers;
use review_sql_records::epochs::Epochs;
use review_sql_records::rows::{Answered, RequestKey};
use review_sql_tables::reads::find;
use review_words::Epoch;
use sqlite::{Alter, Connection, Error, Transaction};
use std::alloc::Global;

/// What is seen of an identity.
#[derive(Drop)]
pub enum LookedUp {
    /// Its epoch is closed, so it wasn't looked up.
    Closed,
    /// Its epoch is open, and its key has this.
    Open(Option<Option<Answered>>),
}

// Looks an identity up whose epoch is open. Where it is closed, only the row of the least open epoch is asked for: to be told so takes a store that is open.
fn look_up<S: Alter>(
    tx: &mut Transaction<'_, S>,
    alloc: Global,
    key: &RequestKey,
    least: Epoch,
) -> Result<LookedUp, Error>
    ensures same_reference { tx.new.conn.ghost_name ≡ tx.old.conn.ghost_name }
    ensures looks { Looks (IsLookedUp key.now least) (state S.Store tx.old.conn.now) (state S.Store tx.new.conn.now) result }
{
    if key.epoch.get() < least.get() {
        let _least = find::<Epochs, S>(tx, alloc, &())?;
        return Ok(LookedUp::Closed);
    }
    let found = find::<Answers, S>(tx, alloc, key)?;
    Ok(LookedUp::Open(found))
}

/// What is stored under an identity, or that its epoch is below the least open one, which is looked at first.
pub fn find_stored<S: Alter>(
    conn: &mut Connection<S>,
    alloc: Global,
    key: &RequestKey,
    least: Epoch,
) -> Result<LookedUp, Error>
    requires mode { conn.old.in_transaction ≡ false }
    ensures mode { conn.new.in_transaction ≡ false }
    ensures serves { Serves (IsLookedUp key.now least) (state S.Store conn.old) (state S.Store conn.new) result }
{
    let _settled = conn.is_autocommit();
    let mut tx = conn.transaction();
    let looked = look_up(&mut tx, alloc, key, least)?;
    tx.commit()?;
    Ok(looked)
}
