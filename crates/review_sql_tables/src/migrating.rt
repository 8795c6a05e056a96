//! Tables of an earlier version become those of the latest, a version after the other.
ghost use Rattle.std.specs.Prelude.{◌≡◌};
ghost use Rattle.{sqlite.specs.Held.state, review_sql_tables.specs.Ran.Within, review_sql_tables.specs.Ran.Opens};
ghost use Rattle.review_sql_tables.specs.Versions.{Migrates, Moves, answers_move, projects_move};
ghost use Rattle.review_sql_tables.specs.declared.versions.EarlierVersion.TheVariants as earlier;

use crate::making::run_text;
use crate::texts;
use crate::versions::EarlierVersion;
use sqlite::{Alter, Error, Transaction};

/// Makes tables of version 1 those of version 2: each project moves to the new table, where it has no parent. The version that the table `desk` says stays.
pub fn move_projects<S: Alter>(tx: &mut Transaction<'_, S>) -> Result<(), Error>
    ensures same_reference { tx.new.conn.ghost_name ≡ tx.old.conn.ghost_name }
    ensures ran { Within (Moves projects_move) (state S.Store tx.old.conn.now) (state S.Store tx.new.conn.now) result }
    ensures open { Opens (state S.Store tx.old.conn.now) (state S.Store tx.new.conn.now) result }
{
    run_text(tx, texts::CREATE_PROJECTS_2)?;
    run_text(tx, texts::MOVE_PROJECTS)?;
    run_text(tx, texts::DROP_PROJECTS)?;
    Ok(())
}

// Moves each stored request of version 2 to the new table, where its epoch is 0.
fn move_answers<S: Alter>(tx: &mut Transaction<'_, S>) -> Result<(), Error>
    ensures same_reference { tx.new.conn.ghost_name ≡ tx.old.conn.ghost_name }
    ensures ran { Within (Moves answers_move) (state S.Store tx.old.conn.now) (state S.Store tx.new.conn.now) result }
    ensures open { Opens (state S.Store tx.old.conn.now) (state S.Store tx.new.conn.now) result }
{
    run_text(tx, texts::CREATE_ANSWERS_3)?;
    run_text(tx, texts::MOVE_ANSWERS)?;
    run_text(tx, texts::DROP_ANSWERS)?;
    Ok(())
}

// From version 2 to version 3.
fn migrate_second<S: Alter>(tx: &mut Transaction<'_, S>) -> Result<(), Error>
    ensures same_reference { tx.new.conn.ghost_name ≡ tx.old.conn.ghost_name }
    ensures ran { Within (Migrates earlier.Second) (state S.Store tx.old.conn.now) (state S.Store tx.new.conn.now) result }
    ensures open { Opens (state S.Store tx.old.conn.now) (state S.Store tx.new.conn.now) result }
{
    move_answers(tx)?;
    run_text(tx, texts::CREATE_EPOCHS)?;
    Ok(())
}

// From version 1 to version 3.
fn migrate_first<S: Alter>(tx: &mut Transaction<'_, S>) -> Result<(), Error>
    ensures same_reference { tx.new.conn.ghost_name ≡ tx.old.conn.ghost_name }
    ensures ran { Within (Migrates earlier.First) (state S.Store tx.old.conn.now) (state S.Store tx.new.conn.now) result }
    ensures open { Opens (state S.Store tx.old.conn.now) (state S.Store tx.new.conn.now) result }
{
    move_projects(tx)?;
    migrate_second(tx)
}

/// Makes tables of an earlier version those of the latest: each row of a table that went since moves to the one that came. The version that the table `desk` says stays, and the table of epochs is empty.
pub fn migrate_tables<S: Alter>(
    tx: &mut Transaction<'_, S>,
    version: EarlierVersion,
) -> Result<(), Error>
    ensures same_reference { tx.new.conn.ghost_name ≡ tx.old.conn.ghost_name }
    ensures ran { Within (Migrates version) (state S.Store tx.old.conn.now) (state S.Store tx.new.conn.now) result }
    ensures open { Opens (state S.Store tx.old.conn.now) (state S.Store tx.new.conn.now) result }
{
    match version {
        EarlierVersion::First => migrate_first(tx),
        EarlierVersion::Second => migrate_second(tx),
    }
}
