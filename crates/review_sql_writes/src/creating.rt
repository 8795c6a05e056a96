//! A desk is made.
ghost use Rattle.std.specs.Prelude.{◌≡◌, false};
ghost use Rattle.sqlite.specs.Held.{state};
ghost use Rattle.review_sql_tables.specs.Ran.{Inside, Within, Opens, Transacts};
ghost use Rattle.review_sql_writes.specs.{Commits.MakesDesk, inner.Words.SetsFirst};

use review_machine_rows::MemberKey;
use review_sql_records::accounts::Accounts;
use review_sql_records::desk::Desk;
use review_sql_records::epochs::Epochs;
use review_sql_records::members::Members;
use review_sql_records::rows::DeskRow;
use review_sql_tables::changes::{change, rewrite};
use review_sql_tables::creating::create_tables;
use review_sql_tables::versions::TablesVersion;
use review_words::{AccountNo, Epoch, admin_name, administrators};
use sqlite::{Alter, Connection, Error, Transaction};
use std::alloc::Global;

fn put_first<S: Alter>(tx: &mut Transaction<'_, S>, alloc: Global) -> Result<(), Error>
    ensures same_reference { tx.new.conn.ghost_name ≡ tx.old.conn.ghost_name }
    ensures ran { Inside SetsFirst (state S.Store tx.old.conn.now) (state S.Store tx.new.conn.now) result }
    ensures open { Opens (state S.Store tx.old.conn.now) (state S.Store tx.new.conn.now) result }
{
    let first = AccountNo::first();
    let name = Some(admin_name(alloc)?);
    let member = MemberKey {
        group: administrators(alloc)?,
        account: first,
    };
    let row = DeskRow {
        version: 3,
        requests: 0,
    };
    change::<Accounts, S>(tx, alloc, &first, &name)?;
    change::<Members, S>(tx, alloc, &member, &Some(()))?;
    rewrite::<Epochs, S>(tx, alloc, &(), &Epoch::first())?;
    rewrite::<Desk, S>(tx, alloc, &(), &row)
}

fn make<S: Alter>(tx: &mut Transaction<'_, S>, alloc: Global) -> Result<(), Error>
    ensures same_reference { tx.new.conn.ghost_name ≡ tx.old.conn.ghost_name }
    ensures ran { Within MakesDesk (state S.Store tx.old.conn.now) (state S.Store tx.new.conn.now) result }
    ensures open { Opens (state S.Store tx.old.conn.now) (state S.Store tx.new.conn.now) result }
{
    create_tables(tx, TablesVersion::Third)?;
    put_first(tx, alloc)
}

/// Makes the tables of a desk and its first rows, in one transaction.
pub fn make_desk<S: Alter>(conn: &mut Connection<S>, alloc: Global) -> Result<(), Error>
    requires mode { conn.old.in_transaction ≡ false }
    ensures mode { conn.new.in_transaction ≡ false }
    ensures acts { Transacts MakesDesk (state S.Store conn.old) (state S.Store conn.new) result }
{
    let _settled = conn.is_autocommit();
    let mut tx = conn.transaction();
    make(&mut tx, alloc)?;
    tx.commit()
}
