//! The tables of a version are made, and known again.
ghost use Rattle.std.specs.{Bool.Decides, Prelude.◌≡◌, Prelude.false, Prelude.IfOk};
ghost use Rattle.{sqlite.specs.Held.state, review_sql_tables.specs.Desk.schema_0};
ghost use Rattle.review_sql_tables.specs.{Ran.Within, Ran.Opens, Ran.Transacts, Versions.Grows, Versions.schema_at};

use crate::making::make_first_tables;
use crate::migrating::{migrate_tables, move_projects};
use crate::schemas::is_same_schema;
use crate::versions::{EarlierVersion, TablesVersion};
use sqlite::{Alter, Connection, Error, Transaction};
use sqlite_schema::schema::Schema;
use std::alloc::Global;

/// Makes the tables of a version, where there is none: those of version 1, and then those of each next version out of them, so that tables that are made
/// and tables that were migrated are the same.
pub fn create_tables<S: Alter>(
    tx: &mut Transaction<'_, S>,
    version: TablesVersion,
) -> Result<(), Error>
    ensures same_reference { tx.new.conn.ghost_name ≡ tx.old.conn.ghost_name }
    ensures ran { Within (Grows schema_0 (schema_at version)) (state S.Store tx.old.conn.now) (state S.Store tx.new.conn.now) result }
    ensures open { Opens (state S.Store tx.old.conn.now) (state S.Store tx.new.conn.now) result }
{
    make_first_tables(tx)?;
    match version {
        TablesVersion::First => Ok(()),
        TablesVersion::Second => move_projects(tx),
        TablesVersion::Third => migrate_tables(tx, EarlierVersion::First),
    }
}

fn create_all<S: Alter>(conn: &mut Connection<S>, version: TablesVersion) -> Result<(), Error>
    requires mode { conn.old.in_transaction ≡ false }
    ensures mode { conn.new.in_transaction ≡ false }
    ensures acts { Transacts (Grows schema_0 (schema_at version)) (state S.Store conn.old) (state S.Store conn.new) result }
{
    let _settled = conn.is_autocommit();
    let mut tx = conn.transaction();
    create_tables(&mut tx, version)?;
    tx.commit()
}

/// Whether a schema is that of a desk whose tables were made here in a version. It makes such tables in memory and compares.
pub fn is_desk(alloc: Global, schema: &Schema, version: TablesVersion) -> Result<bool, Error>
    ensures { IfOk result (λ is. Decides is (schema.now ≡ schema_at version)) }
{
    let mut plain = Connection::open_in_memory(alloc)?;
    create_all(&mut plain, version)?;
    Ok(is_same_schema(schema, plain.schema()))
}
