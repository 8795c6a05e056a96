//! What is seen of tables before a desk is opened: first what the table `desk` says, then the other tables, and last the rowids of tables of our form.
ghost use Rattle.std.specs.Bool.{Decides};
ghost use Rattle.std.specs.Prelude.{◌≡◌, ◌≢◌, ◌⊎◌, ℕ, Some, None, true, false, IsTrue, IfOk, IfErr, IfSome};
ghost use Rattle.sqlite.specs.{Held.state, State.HasCleanDisk, State.IsLive};
ghost use Rattle.review_sql_tables.specs.Versions.{schema_at, version_number};
ghost use Rattle.review_sql.specs.Opened.{AreAllApart, Peeks, IsLacking, IsSeen, IsRefused, TellsShut, LacksLeast, least_shown, SaysLeast, ShowsDesk, ShowsEpochs, number_of_one, version_shown, requests_shown, IsSaid, IsThere, SaysVersion};
ghost use Rattle.review_sql.specs.Shelf.{AreAllRead, Stays};

use crate::faults::DeskFault;
use crate::seen::{Said, Seen};
use crate::there::{are_all_there, is_understood};
use review_sql_tables::columns::number_at;
use review_sql_tables::creating::is_desk;
use review_sql_tables::rowids::are_all_apart;
use review_sql_tables::texts;
use review_sql_tables::versions::TablesVersion;
use review_sql_writes::Numbers;
use review_words::Epoch;
use sqlite::{Alter, Connection, Error, Row};
use std::alloc::Global;

// The number that the one row has in a column.
fn number_of_one(rows: &[Row], at: usize) -> Option<u64>
    ensures { result ≡ number_of_one at rows.now }
{
    if rows.len() > 1 {
        return None;
    }
    number_at(rows.first()?, at)
}

// What rows of the table `desk` say.
fn said_by(rows: &[Row]) -> Said
    ensures version { result.version ≡ version_shown rows.now }
    ensures requests { result.requests ≡ requests_shown rows.now }
{
    Said {
        version: number_of_one(rows, 0),
        requests: number_of_one(rows, 1),
    }
}

// The rows of the table `desk`.
fn desk_rows<S: Alter>(conn: &mut Connection<S>) -> Result<Vec<Row>, Error>
    requires mode { conn.old.in_transaction ≡ false }
    ensures mode { conn.new.in_transaction ≡ false }
    ensures stays { Stays (state S.Store conn.old) (state S.Store conn.new) }
    ensures shown { HasCleanDisk (state S.Store conn.new) → IfOk result (λ rows. ShowsDesk (state S.Store conn.old).now rows.items) }
    ensures opens { HasCleanDisk (state S.Store conn.new) → IfOk result (λ found. IsTrue (state S.Store conn.new).is_open) }
{
    let _settled = conn.is_autocommit();
    conn.query_all(texts::FIND_DESK, &[])
}

// The rows of the table `epochs`.
fn epochs_rows<S: Alter>(conn: &mut Connection<S>) -> Result<Vec<Row>, Error>
    requires mode { conn.old.in_transaction ≡ false }
    ensures mode { conn.new.in_transaction ≡ false }
    ensures stays { Stays (state S.Store conn.old) (state S.Store conn.new) }
    ensures shown { HasCleanDisk (state S.Store conn.new) → IfOk result (λ rows. ShowsEpochs (state S.Store conn.old).now rows.items) }
    ensures opens { HasCleanDisk (state S.Store conn.new) → IfOk result (λ found. IsTrue (state S.Store conn.new).is_open) }
{
    let _settled = conn.is_autocommit();
    conn.query_all(texts::FIND_EPOCHS, &[])
}

/// What the table `desk` says; it is no desk's where it isn't there.
pub fn ask<S: Alter>(conn: &mut Connection<S>) -> Result<Said, DeskFault>
    requires mode { conn.old.in_transaction ≡ false }
    ensures mode { conn.new.in_transaction ≡ false }
    ensures stays { Stays (state S.Store conn.old) (state S.Store conn.new) }
    ensures said { IsTrue (state S.Store conn.new).is_open → IfOk result (IsSaid (state S.Store conn.old).now) }
    ensures lacking { IsTrue (state S.Store conn.new).is_open → IfErr result (IsLacking TablesVersion.Third (state S.Store conn.old)) }
    ensures not_ours { IfErr result (λ fault. fault ≢ DeskFault.NotOurs) }
    ensures opens { HasCleanDisk (state S.Store conn.new) → IfOk result (λ found. IsTrue (state S.Store conn.new).is_open) }
    ensures shut { IfErr result (TellsShut (state S.Store conn.new)) }
{
    match is_understood(conn, texts::FIND_DESK) {
        Ok(true) => {}
        Ok(false) => return Err(DeskFault::NotADesk),
        Err(error) => return Err(DeskFault::of(error)),
    }
    match desk_rows(conn) {
        Ok(rows) => Ok(said_by(&rows)),
        Err(error) => Err(DeskFault::of(error)),
    }
}

/// The version that the table `desk` says, where it is one of these.
pub fn version_of(said: Said) -> Result<TablesVersion, DeskFault>
    ensures ok { IfOk result (λ version. said.version ≡ Some (version_number version)) }
    ensures err { IfErr result (λ e. ((e ≡ DeskFault.NotADesk) × (said.version ≡ None))
        ⊎ ((e ≡ DeskFault.WrongVersion) × ((number : ℕ) × (said.version ≡ Some number) × (number ≢ 1) × (number ≢ 2) × (number ≢ 3)))) }
{
    match said.version {
        None => Err(DeskFault::NotADesk),
        Some(1) => Ok(TablesVersion::First),
        Some(2) => Ok(TablesVersion::Second),
        Some(3) => Ok(TablesVersion::Third),
        Some(_) => Err(DeskFault::WrongVersion),
    }
}

// The least open epoch that rows of the table `epochs` say.
fn least_shown(rows: &[Row]) -> Option<Epoch>
    ensures { result ≡ least_shown rows.now }
{
    Epoch::from_number(number_of_one(rows, 0)?)
}

// The least open epoch that the table of the epochs says; the first one, where the version has no such table.
fn least_said<S: Alter>(
    conn: &mut Connection<S>,
    version: TablesVersion,
) -> Result<Option<Epoch>, Error>
    requires mode { conn.old.in_transaction ≡ false }
    requires open { HasCleanDisk (state S.Store conn.old) → IsTrue (state S.Store conn.old).is_open }
    ensures mode { conn.new.in_transaction ≡ false }
    ensures stays { Stays (state S.Store conn.old) (state S.Store conn.new) }
    ensures is { IsTrue (state S.Store conn.new).is_open → IfOk result (λ said. IfSome said (SaysLeast version (state S.Store conn.old).now)) }
    ensures none { IsTrue (state S.Store conn.new).is_open → IfOk result (λ said. said ≡ None → LacksLeast version (state S.Store conn.old).now) }
    ensures opens { HasCleanDisk (state S.Store conn.new) → IfOk result (λ found. IsTrue (state S.Store conn.new).is_open) }
{
    match version {
        TablesVersion::First | TablesVersion::Second => Ok(Some(Epoch::first())),
        TablesVersion::Third => {
            let rows = epochs_rows(conn)?;
            Ok(least_shown(&rows))
        }
    }
}

// The least open epoch, where all tables of a version beside the table `desk` are there, of whatever form, and say one.
fn least_of_whole<S: Alter>(
    conn: &mut Connection<S>,
    version: TablesVersion,
) -> Result<Option<Epoch>, Error>
    requires mode { conn.old.in_transaction ≡ false }
    requires open { HasCleanDisk (state S.Store conn.old) → IsTrue (state S.Store conn.old).is_open }
    ensures mode { conn.new.in_transaction ≡ false }
    ensures stays { Stays (state S.Store conn.old) (state S.Store conn.new) }
    ensures whole { IsTrue (state S.Store conn.new).is_open → IfOk result (λ said. IfSome said (λ least. AreAllRead version (state S.Store conn.old).now.schema × SaysLeast version (state S.Store conn.old).now least)) }
    ensures part { IsTrue (state S.Store conn.new).is_open → IfOk result (λ said. said ≡ None → (AreAllRead version (state S.Store conn.old).now.schema → ⊥) ⊎ LacksLeast version (state S.Store conn.old).now) }
    ensures opens { HasCleanDisk (state S.Store conn.new) → IfOk result (λ found. IsTrue (state S.Store conn.new).is_open) }
{
    if !are_all_there(conn, version)? {
        return Ok(None);
    }
    least_said(conn, version)
}

// What a desk says of itself, where the table `desk` says this version and the other tables of the version are there, of whatever form.
fn find_tables<S: Alter>(
    conn: &mut Connection<S>,
    version: TablesVersion,
    said: Said,
) -> Result<Numbers, DeskFault>
    requires mode { conn.old.in_transaction ≡ false }
    requires open { HasCleanDisk (state S.Store conn.old) → IsTrue (state S.Store conn.old).is_open }
    requires says { IsTrue (state S.Store conn.old).is_open → SaysVersion version (state S.Store conn.old).now said }
    ensures mode { conn.new.in_transaction ≡ false }
    ensures stays { Stays (state S.Store conn.old) (state S.Store conn.new) }
    ensures there { IsTrue (state S.Store conn.new).is_open → IfOk result (IsThere version (state S.Store conn.old).now) }
    ensures lacking { IsTrue (state S.Store conn.new).is_open → IfErr result (IsLacking version (state S.Store conn.old)) }
    ensures not_ours { IfErr result (λ fault. fault ≢ DeskFault.NotOurs) }
    ensures opens { HasCleanDisk (state S.Store conn.new) → IfOk result (λ found. IsTrue (state S.Store conn.new).is_open) }
    ensures shut { IfErr result (TellsShut (state S.Store conn.new)) }
{
    let Some(requests) = said.requests else {
        return Err(DeskFault::NotADesk);
    };
    match least_of_whole(conn, version) {
        Ok(Some(least)) => Ok(Numbers { requests, least }),
        Ok(None) => Err(DeskFault::NotADesk),
        Err(error) => Err(DeskFault::of(error)),
    }
}

/// Whether the tables have the form that this version of them has where they were made here, how many requests were ever stored, and which epoch is the least open one. Nothing is written.
pub fn see_tables<S: Alter>(
    conn: &mut Connection<S>,
    alloc: Global,
    version: TablesVersion,
    said: Said,
) -> Result<Seen, DeskFault>
    requires mode { conn.old.in_transaction ≡ false }
    requires open { HasCleanDisk (state S.Store conn.old) → IsTrue (state S.Store conn.old).is_open }
    requires says { IsTrue (state S.Store conn.old).is_open → SaysVersion version (state S.Store conn.old).now said }
    ensures mode { conn.new.in_transaction ≡ false }
    ensures stays { Stays (state S.Store conn.old) (state S.Store conn.new) }
    ensures live { IsLive (state S.Store conn.old) }
    ensures form { IfOk result (λ seen. Decides seen.is_ours (conn.old.schema ≡ schema_at version)) }
    ensures there { IsTrue (state S.Store conn.new).is_open → IfOk result (λ seen. IsThere version (state S.Store conn.old).now seen.numbers) }
    ensures lacking { IsTrue (state S.Store conn.new).is_open → IfErr result (IsLacking version (state S.Store conn.old)) }
    ensures not_ours { IfErr result (λ fault. fault ≢ DeskFault.NotOurs) }
    ensures opens { HasCleanDisk (state S.Store conn.new) → IfOk result (λ found. IsTrue (state S.Store conn.new).is_open) }
    ensures shut { IfErr result (TellsShut (state S.Store conn.new)) }
{
    let is_ours = match is_desk(alloc, conn.schema(), version) {
        Ok(has_form) => has_form,
        Err(error) => return Err(DeskFault::of(error)),
    };
    let numbers = find_tables(conn, version, said)?;
    Ok(Seen { is_ours, numbers })
}

// Whether the rows of each table have rowids of their own.
fn peek<S: Alter>(conn: &mut Connection<S>, alloc: Global) -> Result<bool, Error>
    requires mode { conn.old.in_transaction ≡ false }
    ensures mode { conn.new.in_transaction ≡ false }
    ensures peeks { Peeks (λ db is. Decides is (AreAllApart db)) (state S.Store conn.old) (state S.Store conn.new) result }
{
    let _settled = conn.is_autocommit();
    let mut tx = conn.transaction();
    let peeked = are_all_apart(&mut tx, alloc);
    tx.rollback();
    peeked
}

/// What is seen of tables of version 3. Nothing is written.
pub fn see_desk<S: Alter>(
    conn: &mut Connection<S>,
    alloc: Global,
    said: Said,
) -> Result<Seen, DeskFault>
    requires mode { conn.old.in_transaction ≡ false }
    requires open { HasCleanDisk (state S.Store conn.old) → IsTrue (state S.Store conn.old).is_open }
    requires says { IsTrue (state S.Store conn.old).is_open → SaysVersion TablesVersion.Third (state S.Store conn.old).now said }
    ensures mode { conn.new.in_transaction ≡ false }
    ensures stays { Stays (state S.Store conn.old) (state S.Store conn.new) }
    ensures seen { IsTrue (state S.Store conn.new).is_open → IfOk result (IsSeen (state S.Store conn.old)) }
    ensures lacking { IsTrue (state S.Store conn.new).is_open → IfErr result (IsLacking TablesVersion.Third (state S.Store conn.old)) }
    ensures not_ours { IfErr result (λ fault. fault ≢ DeskFault.NotOurs) }
    ensures shut { IfErr result (TellsShut (state S.Store conn.new)) }
{
    let seen = see_tables(conn, alloc, TablesVersion::Third, said)?;
    if !seen.is_ours {
        return Ok(seen);
    }
    match peek(conn, alloc) {
        Ok(is_ours) => Ok(Seen {
            is_ours,
            numbers: seen.numbers,
        }),
        Err(error) => Err(DeskFault::of(error)),
    }
}

/// What is seen of the tables of a connection that is to be opened as a desk. Nothing is written.
pub fn see<S: Alter>(conn: &mut Connection<S>, alloc: Global) -> Result<Seen, DeskFault>
    requires mode { conn.old.in_transaction ≡ false }
    ensures mode { conn.new.in_transaction ≡ false }
    ensures stays { Stays (state S.Store conn.old) (state S.Store conn.new) }
    ensures seen { IsTrue (state S.Store conn.new).is_open → IfOk result (IsSeen (state S.Store conn.old)) }
    ensures refused { IsTrue (state S.Store conn.new).is_open → IfErr result (IsRefused (state S.Store conn.old)) }
    ensures not_ours { IfErr result (λ fault. fault ≢ DeskFault.NotOurs) }
    ensures shut { IfErr result (TellsShut (state S.Store conn.new)) }
{
    let said = ask(conn)?;
    match version_of(said)? {
        TablesVersion::First | TablesVersion::Second => Err(DeskFault::WrongVersion),
        TablesVersion::Third => see_desk(conn, alloc, said),
    }
}
