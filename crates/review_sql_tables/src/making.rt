//! Texts are run that make a table, give it another's rows or drop one; and the tables of version 1 are made.
ghost use Rattle.std.specs.Prelude.{◌≡◌, ◌<◌, ℕ, List, map, slice_index_or};
ghost use Rattle.sqlite.specs.Held.{state};
ghost use Rattle.review_sql_tables.specs.{Desk.schema_0, Desk.schema_1, Ran.Within, Ran.Opens};
ghost use Rattle.review_sql_tables.specs.{Versions.MakesBy, Versions.Grows, declared.texts.TheConstants.CREATE};
ghost use Rattle.review_sql_tables.specs.inner.Words.{DropsBy, FillsBy};

use crate::texts;
use sqlite::{Alter, Error, Transaction};

/// Runs a text by which a table is made, gets the rows of another, or is dropped.
pub fn run_text<S: Alter>(tx: &mut Transaction<'_, S>, sql: &str) -> Result<usize, Error>
    ensures same_reference { tx.new.conn.ghost_name ≡ tx.old.conn.ghost_name }
    ensures makes { Within (MakesBy sql.now) (state S.Store tx.old.conn.now) (state S.Store tx.new.conn.now) result }
    ensures fills { Within (FillsBy sql.now) (state S.Store tx.old.conn.now) (state S.Store tx.new.conn.now) result }
    ensures drops { Within (DropsBy sql.now) (state S.Store tx.old.conn.now) (state S.Store tx.new.conn.now) result }
    ensures open { Opens (state S.Store tx.old.conn.now) (state S.Store tx.new.conn.now) result }
{
    tx.execute(sql, &[])
}

// The text that makes a table of the list.
fn create_text(at: usize) -> &'static str
    requires { at < 12 }
    ensures { (d : List ℕ) → result.now ≡ slice_index_or (map (λ t. t.now) CREATE) at d }
{
    texts::CREATE[at]
}

/// Makes the tables of version 1, where there is none.
pub fn make_first_tables<S: Alter>(tx: &mut Transaction<'_, S>) -> Result<(), Error>
    ensures same_reference { tx.new.conn.ghost_name ≡ tx.old.conn.ghost_name }
    ensures ran { Within (Grows schema_0 schema_1) (state S.Store tx.old.conn.now) (state S.Store tx.new.conn.now) result }
    ensures open { Opens (state S.Store tx.old.conn.now) (state S.Store tx.new.conn.now) result }
{
    run_text(tx, create_text(0))?;
    for at in 1..12 {
        run_text(tx, create_text(at))?;
    }
    Ok(())
}
