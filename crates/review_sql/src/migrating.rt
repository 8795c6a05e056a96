//! Tables of an earlier version become those of a desk, in one transaction.
ghost use Rattle.std.specs.Prelude.{◌≡◌, ◌≢◌, ◌⊎◌, true, false, IsTrue, IfOk, IfErr};
ghost use Rattle.sqlite.specs.{Held.state, State.HasCleanDisk};
ghost use Rattle.review_sql_tables.specs.Ran.{Inside, Within, Opens, Transacts};
ghost use Rattle.review_sql_tables.specs.{Versions.schema_at, Versions.version_of, inner.Words.Then};
ghost use Rattle.review_sql_writes.specs.inner.Words.{SetsDesk, SetsLeast};
ghost use Rattle.review_sql.specs.Migrated.{IsBrought, IsHindered, IsKept, IsNotMigrated, IsRaised, IsUnfit, Upgrades, if_whole};
ghost use Rattle.review_sql.specs.{Opened.AreApartIn, Opened.TellsShut, Opened.SaysVersion, Shelf.Stays};

use crate::faults::DeskFault;
use crate::opening::{ask, see_desk, see_tables, version_of};
use crate::seen::Said;
use review_sql_records::desk::Desk;
use review_sql_records::epochs::Epochs;
use review_sql_records::rows::DeskRow;
use review_sql_tables::changes;
use review_sql_tables::migrating::migrate_tables;
use review_sql_tables::rowids::are_all_apart;
use review_sql_tables::versions::{EarlierVersion, TablesVersion};
use review_sql_writes::Numbers;
use sqlite::{Alter, Connection, Error, Transaction};
use std::alloc::Global;

// Says which epoch is the least open one, version 3, and how many requests were ever stored.
fn put_version<S: Alter>(
    tx: &mut Transaction<'_, S>,
    alloc: Global,
    numbers: Numbers,
) -> Result<(), Error>
    ensures same_reference { tx.new.conn.ghost_name ≡ tx.old.conn.ghost_name }
    ensures ran { Inside (Then (SetsLeast numbers.least) (SetsDesk numbers.requests)) (state S.Store tx.old.conn.now) (state S.Store tx.new.conn.now) result }
    ensures open { Opens (state S.Store tx.old.conn.now) (state S.Store tx.new.conn.now) result }
{
    let row = DeskRow {
        version: 3,
        requests: numbers.requests,
    };
    changes::rewrite::<Epochs, S>(tx, alloc, &(), &numbers.least)?;
    changes::rewrite::<Desk, S>(tx, alloc, &(), &row)
}

// Makes tables of ours those of version 3, unless two rows of one have the same rowid.
fn rewrite_ours<S: Alter>(
    tx: &mut Transaction<'_, S>,
    alloc: Global,
    version: EarlierVersion,
    numbers: Numbers,
) -> Result<bool, Error>
    ensures same_reference { tx.new.conn.ghost_name ≡ tx.old.conn.ghost_name }
    ensures ran { Within (Upgrades version true numbers) (state S.Store tx.old.conn.now) (state S.Store tx.new.conn.now) (if_whole result) }
    ensures open { Opens (state S.Store tx.old.conn.now) (state S.Store tx.new.conn.now) (if_whole result) }
    ensures hindered { IsHindered version (state S.Store tx.old.conn.now) (state S.Store tx.new.conn.now) result }
{
    migrate_tables(tx, version)?;
    if !are_all_apart(tx, alloc)? {
        return Ok(false);
    }
    put_version(tx, alloc, numbers)?;
    Ok(true)
}

// Makes tables of others those of version 3.
fn rewrite_others<S: Alter>(
    tx: &mut Transaction<'_, S>,
    alloc: Global,
    version: EarlierVersion,
    numbers: Numbers,
) -> Result<bool, Error>
    ensures same_reference { tx.new.conn.ghost_name ≡ tx.old.conn.ghost_name }
    ensures ran { Within (Upgrades version false numbers) (state S.Store tx.old.conn.now) (state S.Store tx.new.conn.now) (if_whole result) }
    ensures open { Opens (state S.Store tx.old.conn.now) (state S.Store tx.new.conn.now) (if_whole result) }
    ensures whole { IfOk result (λ whole. whole ≡ true) }
{
    migrate_tables(tx, version)?;
    put_version(tx, alloc, numbers)?;
    Ok(true)
}

fn rewrite<S: Alter>(
    tx: &mut Transaction<'_, S>,
    alloc: Global,
    version: EarlierVersion,
    is_ours: bool,
    numbers: Numbers,
) -> Result<bool, Error>
    ensures same_reference { tx.new.conn.ghost_name ≡ tx.old.conn.ghost_name }
    ensures ran { Within (Upgrades version is_ours numbers) (state S.Store tx.old.conn.now) (state S.Store tx.new.conn.now) (if_whole result) }
    ensures open { Opens (state S.Store tx.old.conn.now) (state S.Store tx.new.conn.now) (if_whole result) }
    ensures hindered { IsHindered version (state S.Store tx.old.conn.now) (state S.Store tx.new.conn.now) result }
    ensures ours { IfOk result (λ whole. whole ≡ false → IsTrue is_ours) }
{
    if is_ours {
        rewrite_ours(tx, alloc, version, numbers)
    } else {
        rewrite_others(tx, alloc, version, numbers)
    }
}

// Makes tables of an earlier version those of version 3 in one transaction, or leaves them where two rows of a table of ours have the same rowid.
fn raise<S: Alter>(
    conn: &mut Connection<S>,
    alloc: Global,
    version: EarlierVersion,
    is_ours: bool,
    numbers: Numbers,
) -> Result<bool, Error>
    requires mode { conn.old.in_transaction ≡ false }
    ensures mode { conn.new.in_transaction ≡ false }
    ensures acts { Transacts (Upgrades version is_ours numbers) (state S.Store conn.old) (state S.Store conn.new) (if_whole result) }
    ensures apart { IfOk result (λ whole. whole ≡ false → IsTrue (state S.Store conn.new).is_open → conn.old.schema ≡ schema_at (version_of version) → AreApartIn (version_of version) (state S.Store conn.old).now.trees → ⊥) }
    ensures ours { IfOk result (λ whole. whole ≡ false → IsTrue is_ours) }
{
    let _settled = conn.is_autocommit();
    let mut tx = conn.transaction();
    if !rewrite(&mut tx, alloc, version, is_ours, numbers)? {
        tx.rollback();
        return Ok(false);
    }
    tx.commit()?;
    Ok(true)
}

// Makes tables that say an earlier version those of version 3. What the desk says of itself.
fn upgrade<S: Alter>(
    conn: &mut Connection<S>,
    alloc: Global,
    version: EarlierVersion,
    is_ours: bool,
    said: Said,
) -> Result<Numbers, DeskFault>
    requires mode { conn.old.in_transaction ≡ false }
    requires open { HasCleanDisk (state S.Store conn.old) → IsTrue (state S.Store conn.old).is_open }
    requires says { IsTrue (state S.Store conn.old).is_open → SaysVersion (version_of version) (state S.Store conn.old).now said }
    ensures mode { conn.new.in_transaction ≡ false }
    ensures raised { IfOk result (IsRaised S.Store version is_ours conn.old conn.new) }
    ensures refused { IfErr result (λ e. IsNotMigrated is_ours e (state S.Store conn.old) (state S.Store conn.new)) }
    ensures unfit { IsTrue (state S.Store conn.new).is_open → IfErr result (IsUnfit (state S.Store conn.old).now) }
    ensures ours { IfErr result (λ e. e ≡ DeskFault.NotOurs → IsTrue is_ours) }
    ensures shut { IfErr result (λ e. (e ≡ DeskFault.NotOurs) ⊎ TellsShut (state S.Store conn.new) e) }
{
    let seen = see_tables(conn, alloc, version.version(), said)?;
    if is_ours && !seen.is_ours {
        return Err(DeskFault::NotOurs);
    }
    match raise(conn, alloc, version, is_ours, seen.numbers) {
        Ok(true) => Ok(seen.numbers),
        Ok(false) => Err(DeskFault::NotOurs),
        Err(error) => Err(DeskFault::of(error)),
    }
}

// Leaves tables of version 3. What the desk says of itself.
fn keep<S: Alter>(
    conn: &mut Connection<S>,
    alloc: Global,
    is_ours: bool,
    said: Said,
) -> Result<Numbers, DeskFault>
    requires mode { conn.old.in_transaction ≡ false }
    requires open { HasCleanDisk (state S.Store conn.old) → IsTrue (state S.Store conn.old).is_open }
    requires says { IsTrue (state S.Store conn.old).is_open → SaysVersion TablesVersion.Third (state S.Store conn.old).now said }
    ensures mode { conn.new.in_transaction ≡ false }
    ensures stays { Stays (state S.Store conn.old) (state S.Store conn.new) }
    ensures kept { IfOk result (IsKept is_ours (state S.Store conn.old) (state S.Store conn.new)) }
    ensures unfit { IsTrue (state S.Store conn.new).is_open → IfErr result (IsUnfit (state S.Store conn.old).now) }
    ensures ours { IfErr result (λ e. e ≡ DeskFault.NotOurs → IsTrue is_ours) }
    ensures shut { IfErr result (λ e. (e ≡ DeskFault.NotOurs) ⊎ TellsShut (state S.Store conn.new) e) }
{
    let seen = see_desk(conn, alloc, said)?;
    if is_ours && !seen.is_ours {
        return Err(DeskFault::NotOurs);
    }
    Ok(seen.numbers)
}

/// Makes the tables those of the latest version, or leaves them where they are. What the desk says of itself.
pub fn bring<S: Alter>(
    conn: &mut Connection<S>,
    alloc: Global,
    is_ours: bool,
) -> Result<Numbers, DeskFault>
    requires mode { conn.old.in_transaction ≡ false }
    ensures mode { conn.new.in_transaction ≡ false }
    ensures brought { IfOk result (IsBrought S.Store is_ours conn.old conn.new) }
    ensures refused { IfErr result (λ e. IsNotMigrated is_ours e (state S.Store conn.old) (state S.Store conn.new)) }
    ensures unfit { IsTrue (state S.Store conn.new).is_open → IfErr result (IsUnfit (state S.Store conn.old).now) }
    ensures ours { IfErr result (λ e. e ≡ DeskFault.NotOurs → IsTrue is_ours) }
    ensures shut { IfErr result (λ e. (e ≡ DeskFault.NotOurs) ⊎ TellsShut (state S.Store conn.new) e) }
{
    let said = ask(conn)?;
    match version_of(said)?.earlier() {
        Some(version) => upgrade(conn, alloc, version, is_ours, said),
        None => keep(conn, alloc, is_ours, said),
    }
}
