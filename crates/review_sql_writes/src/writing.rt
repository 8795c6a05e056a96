//! What a delivery changes is written, all of it or nothing.
ghost use Rattle.std.specs.Prelude.{◌≡◌, Some, [], ◌+◌, ◌<◌, ◌^◌, false};
ghost use Rattle.sqlite.specs.Held.{state};
ghost use Rattle.review_sql_tables.specs.Ran.{Inside, Within, Opens, Transacts};
ghost use Rattle.review_sql_writes.specs.Commits.{Commits};
ghost use Rattle.review_sql_writes.specs.inner.Words.{GivesUp, SetsEdit, SetsEdits, SetsPut, SetsUnowned, is_named};

use crate::numbers::Numbers;
use review_machine_rows::{ChangeEdit, Delta, Kept, Put};
use review_sql_change_records::attention::AttentionEntries;
use review_sql_change_records::comments::Comments;
use review_sql_change_records::headers::Headers;
use review_sql_change_records::patches::Patches;
use review_sql_change_records::roles::Roles;
use review_sql_change_records::votes::Votes;
use review_sql_records::accounts::Accounts;
use review_sql_records::answers;
use review_sql_records::bases::Bases;
use review_sql_records::desk::Desk;
use review_sql_records::epochs::Epochs;
use review_sql_records::members::Members;
use review_sql_records::projects::Projects;
use review_sql_records::rows::DeskRow;
use review_sql_tables::changes::{change_all, rewrite, set};
use review_sql_tables::fronts::change_parts;
use review_sql_tables::table::Record;
use review_words::{ChangeNo, Epoch};
use sqlite::{Alter, Connection, Error, Transaction};
use std::alloc::Global;

// Puts a row, where there is one.
fn put_row<T: Record, S: Alter>(
    tx: &mut Transaction<'_, S>,
    alloc: Global,
    put: &Option<Put<T::Key, T::Item>>,
) -> Result<(), Error>
    ensures same_reference { tx.new.conn.ghost_name ≡ tx.old.conn.ghost_name }
    ensures ran { Inside (SetsPut T.table.search put.now) (state S.Store tx.old.conn.now) (state S.Store tx.new.conn.now) result }
{
    match put {
        Some(put) => set::<T, S>(tx, alloc, &put.key, &put.row),
        None => Ok(()),
    }
}

fn write_unowned<S: Alter>(
    tx: &mut Transaction<'_, S>,
    alloc: Global,
    delta: &Delta,
) -> Result<(), Error>
    ensures same_reference { tx.new.conn.ghost_name ≡ tx.old.conn.ghost_name }
    ensures ran { Inside (SetsUnowned delta.now) (state S.Store tx.old.conn.now) (state S.Store tx.new.conn.now) result }
{
    change_all::<Accounts, S>(tx, alloc, &delta.accounts)?;
    change_all::<Members, S>(tx, alloc, &delta.members)?;
    put_row::<Projects, S>(tx, alloc, &delta.file)?;
    put_row::<Bases, S>(tx, alloc, &delta.base)
}

fn write_edit<S: Alter>(
    tx: &mut Transaction<'_, S>,
    alloc: Global,
    edit: &ChangeEdit,
) -> Result<(), Error>
    ensures same_reference { tx.new.conn.ghost_name ≡ tx.old.conn.ghost_name }
    ensures ran { Inside (SetsEdit edit.now) (state S.Store tx.old.conn.now) (state S.Store tx.new.conn.now) result }
{
    rewrite::<Headers, S>(tx, alloc, &edit.change, &edit.header)?;
    change_parts::<Patches, S>(tx, alloc, &edit.change, &edit.patches)?;
    change_parts::<Votes, S>(tx, alloc, &edit.change, &edit.votes)?;
    change_parts::<Roles, S>(tx, alloc, &edit.change, &edit.roles)?;
    change_parts::<Comments, S>(tx, alloc, &edit.change, &edit.comments)?;
    change_parts::<AttentionEntries, S>(tx, alloc, &edit.change, &edit.attention)
}

// Whether one of the edits is of a change.
fn is_named(edits: &[ChangeEdit], change: ChangeNo) -> bool
    ensures { result ≡ is_named edits.now change }
{
    edits.iter().any(|edit| edit.change == change)
}

// Makes the edits, the last first, each unless one before it is of the same change.
fn write_edits<S: Alter>(
    tx: &mut Transaction<'_, S>,
    alloc: Global,
    edits: &[ChangeEdit],
) -> Result<(), Error>
    ensures same_reference { tx.new.conn.ghost_name ≡ tx.old.conn.ghost_name }
    ensures ran { Inside (SetsEdits [] edits.now) (state S.Store tx.old.conn.now) (state S.Store tx.new.conn.now) result }
{
    let mut left = edits.len();
    while left > 0 {
        left -= 1;
        let edit = &edits[left];
        if is_named(&edits[..left], edit.change) {
            continue;
        }
        write_edit(tx, alloc, edit)?;
    }
    Ok(())
}

// Makes an epoch the least open one, and takes the kept answers of lower ones away.
fn close_below<S: Alter>(
    tx: &mut Transaction<'_, S>,
    alloc: Global,
    least: Epoch,
) -> Result<(), Error>
    ensures same_reference { tx.new.conn.ghost_name ≡ tx.old.conn.ghost_name }
    ensures ran { Inside (GivesUp (Some least)) (state S.Store tx.old.conn.now) (state S.Store tx.new.conn.now) result }
{
    answers::remove_below(tx, least)?;
    rewrite::<Epochs, S>(tx, alloc, &(), &least)
}

// Closes the epochs below the one that a delta names, if it names one.
fn give_up<S: Alter>(
    tx: &mut Transaction<'_, S>,
    alloc: Global,
    epoch: Option<Epoch>,
) -> Result<(), Error>
    ensures same_reference { tx.new.conn.ghost_name ≡ tx.old.conn.ghost_name }
    ensures ran { Inside (GivesUp epoch) (state S.Store tx.old.conn.now) (state S.Store tx.new.conn.now) result }
{
    match epoch {
        Some(least) => close_below(tx, alloc, least),
        None => Ok(()),
    }
}

fn write<S: Alter>(
    tx: &mut Transaction<'_, S>,
    alloc: Global,
    delta: &Delta,
    kept: &Kept,
    numbers: &Numbers,
) -> Result<(), Error>
    requires { numbers.now.requests + 1 < 2 ^ 64 }
    ensures same_reference { tx.new.conn.ghost_name ≡ tx.old.conn.ghost_name }
    ensures ran { Within (Commits delta.now kept.now numbers.now) (state S.Store tx.old.conn.now) (state S.Store tx.new.conn.now) result }
    ensures open { Opens (state S.Store tx.old.conn.now) (state S.Store tx.new.conn.now) result }
{
    write_unowned(tx, alloc, delta)?;
    write_edits(tx, alloc, &delta.changes)?;
    answers::put(tx, alloc, kept)?;
    give_up(tx, alloc, delta.least_epoch)?;
    let row = DeskRow {
        version: 3,
        requests: numbers.requests + 1,
    };
    rewrite::<Desk, S>(tx, alloc, &(), &row)
}

/// Writes a delta and a request in one transaction, where the desk said so of itself.
pub fn transact<S: Alter>(
    conn: &mut Connection<S>,
    alloc: Global,
    delta: &Delta,
    kept: &Kept,
    numbers: &Numbers,
) -> Result<(), Error>
    requires mode { conn.old.in_transaction ≡ false }
    requires fits { numbers.now.requests + 1 < 2 ^ 64 }
    ensures mode { conn.new.in_transaction ≡ false }
    ensures acts { Transacts (Commits delta.now kept.now numbers.now) (state S.Store conn.old) (state S.Store conn.new) result }
{
    let _settled = conn.is_autocommit();
    let mut tx = conn.transaction();
    write(&mut tx, alloc, delta, kept, numbers)?;
    tx.commit()
}
