//! Whether a text is understood by the tables of a connection.
ghost use Rattle.std.specs.Prelude.{◌≡◌, ◌≢◌, ◌<◌, ℕ, List, length, true, false, map, slice_index_or, IsTrue, IfOk};
ghost use Rattle.sqlite.specs.{Held.state, State.HasCleanDisk};
ghost use Rattle.review_sql_tables.specs.declared.texts.TheConstants.{ANY_ROW};
ghost use Rattle.review_sql.specs.Shelf.{Stays, IsUnderstood, IsAnyThere, AreAllRead, rows_read};

use review_sql_tables::texts;
use review_sql_tables::versions::TablesVersion;
use sqlite::{Alter, Connection, Error, ErrorCode};

/// Whether a text is understood.
pub fn is_understood<S: Alter>(conn: &mut Connection<S>, sql: &str) -> Result<bool, Error>
    requires mode { conn.old.in_transaction ≡ false }
    ensures mode { conn.new.in_transaction ≡ false }
    ensures stays { Stays (state S.Store conn.old) (state S.Store conn.new) }
    ensures is { HasCleanDisk (state S.Store conn.new) → IfOk result (λ is. is ≡ true → IsUnderstood (state S.Store conn.old).now.schema sql.now) }
    ensures unknown { HasCleanDisk (state S.Store conn.new) → IfOk result (λ is. is ≡ false → IsUnderstood (state S.Store conn.old).now.schema sql.now → ⊥) }
    ensures opens { HasCleanDisk (state S.Store conn.new) → IfOk result (λ is. IsTrue (state S.Store conn.new).is_open) }
{
    let _settled = conn.is_autocommit();
    match conn.prepare(sql) {
        Ok(_) => return Ok(true),
        Err(Error::SqlInputError(_)) => {}
        Err(error) => return Err(error),
    }
    Ok(false)
}

/// The error of a call that failed. It says want of memory only where the connection is open still, which a text that is understood shows.
pub fn seen<S: Alter>(conn: &mut Connection<S>, error: Error) -> Error
    requires mode { conn.old.in_transaction ≡ false }
    ensures mode { conn.new.in_transaction ≡ false }
    ensures stays { Stays (state S.Store conn.old) (state S.Store conn.new) }
    ensures memory { result ≡ Error.SqliteFailure ErrorCode.OutOfMemory → HasCleanDisk (state S.Store conn.new) → IsTrue (state S.Store conn.new).is_open }
    ensures other { error ≢ Error.SqliteFailure ErrorCode.OutOfMemory → result ≡ error }
{
    if !matches!(error, Error::SqliteFailure(ErrorCode::OutOfMemory)) {
        return error;
    }
    match is_understood(conn, texts::FIND_DESK) {
        Ok(true) => error,
        _ => Error::SqliteFailure(ErrorCode::Closed),
    }
}

/// Whether no more can be asked of a connection, since a fault has shut its store. It is taken to be so where there is no memory to look.
pub fn is_shut<S: Alter>(conn: &mut Connection<S>) -> bool
    requires mode { conn.old.in_transaction ≡ false }
    ensures mode { conn.new.in_transaction ≡ false }
    ensures stays { Stays (state S.Store conn.old) (state S.Store conn.new) }
    ensures open { result ≡ false → HasCleanDisk (state S.Store conn.new) → IsTrue (state S.Store conn.new).is_open }
{
    is_understood(conn, texts::FIND_DESK).is_err()
}

// A text that reads no column of a table of one of the names that tables of a desk have.
fn any_row(at: usize) -> &'static str
    requires { at < 15 }
    ensures { (d : List ℕ) → result.now ≡ slice_index_or (map (λ t. t.now) ANY_ROW) at d }
{
    texts::ANY_ROW[at]
}

/// Whether a table of one of the names that tables of a desk have is there.
pub fn is_any_there<S: Alter>(conn: &mut Connection<S>) -> Result<bool, Error>
    requires mode { conn.old.in_transaction ≡ false }
    ensures mode { conn.new.in_transaction ≡ false }
    ensures stays { Stays (state S.Store conn.old) (state S.Store conn.new) }
    ensures is { HasCleanDisk (state S.Store conn.new) → IfOk result (λ is. is ≡ true → IsTrue (state S.Store conn.new).is_open → IsAnyThere (state S.Store conn.old).now.schema) }
    ensures none { HasCleanDisk (state S.Store conn.new) → IfOk result (λ is. is ≡ false → IsAnyThere (state S.Store conn.old).now.schema → ⊥) }
    ensures opens { HasCleanDisk (state S.Store conn.new) → IfOk result (λ found. IsTrue (state S.Store conn.new).is_open) }
{
    for at in 0..15 {
        if is_understood(conn, any_row(at))? {
            return Ok(true);
        }
    }
    Ok(false)
}

// How many tables a version has beside the table `desk`.
fn count_of(version: TablesVersion) -> usize
    ensures { result ≡ length (rows_read version) }
{
    match version {
        TablesVersion::First => texts::READ_ROWS_1.len(),
        TablesVersion::Second => texts::READ_ROWS_2.len(),
        TablesVersion::Third => texts::READ_ROWS.len(),
    }
}

// A text that reads all columns of one of them.
fn read_row(version: TablesVersion, at: usize) -> &'static str
    requires { at < length (rows_read version) }
    ensures { (d : List ℕ) → result.now ≡ slice_index_or (rows_read version) at d }
{
    match version {
        TablesVersion::First => texts::READ_ROWS_1[at],
        TablesVersion::Second => texts::READ_ROWS_2[at],
        TablesVersion::Third => texts::READ_ROWS[at],
    }
}

/// Whether the columns of all tables of a version beside the table `desk` are there.
pub fn are_all_there<S: Alter>(
    conn: &mut Connection<S>,
    version: TablesVersion,
) -> Result<bool, Error>
    requires mode { conn.old.in_transaction ≡ false }
    requires open { HasCleanDisk (state S.Store conn.old) → IsTrue (state S.Store conn.old).is_open }
    ensures mode { conn.new.in_transaction ≡ false }
    ensures stays { Stays (state S.Store conn.old) (state S.Store conn.new) }
    ensures all { HasCleanDisk (state S.Store conn.new) → IfOk result (λ is. is ≡ true → IsTrue (state S.Store conn.new).is_open → AreAllRead version (state S.Store conn.old).now.schema) }
    ensures missing { HasCleanDisk (state S.Store conn.new) → IfOk result (λ is. is ≡ false → AreAllRead version (state S.Store conn.old).now.schema → ⊥) }
    ensures opens { HasCleanDisk (state S.Store conn.new) → IfOk result (λ found. IsTrue (state S.Store conn.new).is_open) }
{
    let count = count_of(version);
    for at in 0..count {
        if !is_understood(conn, read_row(version, at))? {
            return Ok(false);
        }
    }
    Ok(true)
}
