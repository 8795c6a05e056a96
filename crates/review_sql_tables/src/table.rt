//! Tables: the texts that look rows up, put them in and take them away, and how rows read and are stored.
ghost use Rattle.std.specs.Prelude.{◌≡◌, true, IfOk, OnOk};
ghost use Rattle.sqlite.specs.Held.{state};
ghost use Rattle.review_sql_tables.specs.Content.{Remakes, Removes};
ghost use Rattle.review_sql_tables.specs.Ran.{Inside, Looks, Opens, Refuses, count_in};
ghost use Rattle.review_sql_tables.specs.{Search.Finds, Search.Puts, Texts.values_of};

use crate::bound::Bound;
use sqlite::{Alter, Error, Row, Transaction};
use std::alloc::{AllocError, Global};
use std::marker::Model;

/// The text of a statement. Contracts see the text.
#[derive(Drop)]
pub struct Sql(pub &'static str);

impl Model for Sql {
    ghost use Rattle.std.specs.Prelude.{ℕ, List};

    ghost Value = { List ℕ };

    ghost view = { λ sql. sql.0.now };
}

impl Sql {
    /// The text itself.
    pub fn text(self) -> &'static str
        ensures { result.now ≡ self }
    {
        self.0
    }
}

/// How a record is given to a key.
#[derive(Clone, Copy, PartialEq, Eq)]
pub enum Sets {
    /// It is put in, and takes the place of what is there only where a rule of the table refuses that: mostly the key has none.
    PutsIn,
    /// What is there is taken away first, since a key often has a record.
    Replaces,
}

/// How a record is given to a key, and the texts that put one in and take those of a key away. Contracts see the texts.
#[derive(Drop)]
pub struct Writes {
    sets: Sets,
    insert: &'static str,
    delete: &'static str,
}

impl Model for Writes {
    ghost use Rattle.review_sql_tables.specs.Record.{Written};

    ghost Value = { Written };

    ghost view = { λ w. record { sets = w.sets; insert = w.insert.now; delete = w.delete.now } };
}

impl Writes {
    /// A record is put in, and takes the place of what is there only where a rule of the table refuses that.
    pub fn puts_in(insert: &'static str, delete: &'static str) -> Writes
        ensures { result ≡ record { sets = Sets.PutsIn; insert = insert.now; delete = delete.now } }
    {
        Writes {
            sets: Sets::PutsIn,
            insert,
            delete,
        }
    }

    /// What is there is taken away before a record is put in.
    pub fn replaces(insert: &'static str, delete: &'static str) -> Writes
        ensures { result ≡ record { sets = Sets.Replaces; insert = insert.now; delete = delete.now } }
    {
        Writes {
            sets: Sets::Replaces,
            insert,
            delete,
        }
    }

    /// How a record is given to a key.
    pub fn sets(self) -> Sets
        ensures { result ≡ self.sets }
    {
        self.sets
    }

    /// The text that puts a record in.
    pub fn insert(self) -> &'static str
        ensures { result.now ≡ self.insert }
    {
        self.insert
    }

    /// The text that takes the records of a key away.
    pub fn delete(self) -> &'static str
        ensures { result.now ≡ self.delete }
    {
        self.delete
    }
}

/// A look-up of rows by the values of some columns.
pub trait Lookup {
    ghost use Rattle.std.specs.Prelude.{ℕ, List};
    ghost use Rattle.review_sql_tables.specs.{Search.Search, Texts.Asks, Texts.rows_where};

    /// The values that are asked for.
    type Key;

    /// What a row reads as.
    type Item: Drop;

    /// The text that asks for them.
    const SQL: Sql;

    /// The text.
    ghost SQL: { List ℕ };

    /// The table, its columns, and how rows are read.
    ghost search: { Search Self.Key Self.Item };

    /// The values that the text is asked with.
    fn bind<'a>(key: &'a Self::Key) -> Result<Bound<'a>, Error>
        ensures { IfOk result (λ values. values ≡ values_of (search.at key.now)) };

    /// A row as it reads; none where it is no row of the table.
    fn read(alloc: Global, row: &Row) -> Result<Option<Self::Item>, AllocError>
        ensures { IfOk result (λ item. item ≡ search.read row.now) };

    /// The text asks for the rows that have these values.
    ghost asks: { (key : Self.Key) → Asks SQL (rows_where search.tree (search.at key) search.columns) };
}

/// The rows of a look-up, as the store has them, in any order.
pub fn select<L: Lookup, S: Alter>(
    tx: &mut Transaction<'_, S>,
    key: &L::Key,
) -> Result<Vec<Row>, Error>
    ensures same_reference { tx.new.conn.ghost_name ≡ tx.old.conn.ghost_name }
    ensures looks { Looks (λ db rows. Finds L.search key.now db rows.items) (state S.Store tx.old.conn.now) (state S.Store tx.new.conn.now) result }
{
    let values = L::bind(key)?;
    tx.query_all(L::SQL.text(), values.as_slice())
}

/// A table of records, which are put in and taken away by their keys.
pub trait Record {
    ghost use Rattle.review_sql_tables.specs.Record.{Records};

    /// A key; of records that belong to an owner, the owner and the rest of a key.
    type Key;

    /// What a record has beside its key.
    type Item;

    /// How records are looked up by their keys, written and stored, and what the texts mean.
    ghost table: { Records Self.Key Self.Item };

    /// How a record is given to a key, and the texts that put one in and take the records of a key away.
    fn writes() -> Writes
        ensures { result ≡ table.writes };

    /// The values of a key.
    fn bind_key<'a>(key: &'a Self::Key) -> Result<Bound<'a>, Error>
        ensures values { IfOk result (λ values. values ≡ values_of (table.search.at key.now)) }
        ensures formed { OnOk result (table.form.is_key key.now ≡ true) };

    /// The values of a record with its key; a text that is made for one of them is put into the buffer. It fails where the record would not
    /// read as itself.
    fn bind_row<'a>(
        alloc: Global,
        key: &'a Self::Key,
        row: &'a Self::Item,
        buffer: &'a mut String,
    ) -> Result<Bound<'a>, Error>
        ensures values { IfOk result (λ values. values ≡ table.form.values key.now row.now) }
        ensures formed { OnOk result (table.form.is_key key.now ≡ true) }
        ensures good { OnOk result (table.form.is_good row.now ≡ true) };
}

/// A table whose records mostly get other values: a text gives the records of a key other ones, each at its place.
pub trait Rewritten: Record {
    ghost use Rattle.{std.specs.Prelude.ℕ, std.specs.Prelude.List, review_sql_tables.specs.Texts.Updates};

    /// The text that gives the records of a key other values.
    const UPDATE: Sql;

    /// The text.
    ghost UPDATE: { List ℕ };

    /// The text gives the records of a key the values with which a record is put in.
    ghost updates: { (key : Self.Key) (row : Self.Item) → Updates UPDATE Self.table.search.tree (Self.table.search.at key) (Self.table.form.values key row) (Self.table.form.stored key row) };
}

/// Puts a row in under a key.
pub fn insert<T: Record, S: Alter>(
    tx: &mut Transaction<'_, S>,
    alloc: Global,
    key: &T::Key,
    row: &T::Item,
) -> Result<usize, Error>
    ensures same_reference { tx.new.conn.ghost_name ≡ tx.old.conn.ghost_name }
    ensures ran { Inside (Puts T.table.search T.table.form key.now row.now) (state S.Store tx.old.conn.now) (state S.Store tx.new.conn.now) result }
    ensures open { Opens (state S.Store tx.old.conn.now) (state S.Store tx.new.conn.now) result }
    ensures refused { Refuses (state S.Store tx.old.conn.now) (state S.Store tx.new.conn.now) result }
    ensures formed { OnOk result (T.table.form.is_key key.now ≡ true) }
    ensures good { OnOk result (T.table.form.is_good row.now ≡ true) }
{
    let mut buffer = String::new(alloc);
    let values = T::bind_row(alloc, key, row, &mut buffer)?;
    tx.execute(T::writes().insert(), values.as_slice())
}

/// Gives the rows of a key the values of this one, and tells how many there were.
pub fn update<T: Rewritten, S: Alter>(
    tx: &mut Transaction<'_, S>,
    alloc: Global,
    key: &T::Key,
    row: &T::Item,
) -> Result<usize, Error>
    ensures same_reference { tx.new.conn.ghost_name ≡ tx.old.conn.ghost_name }
    ensures ran { Inside (Remakes T.table.search.tree (T.table.search.at key.now) (T.table.form.stored key.now row.now) (count_in result)) (state S.Store tx.old.conn.now) (state S.Store tx.new.conn.now) result }
    ensures open { Opens (state S.Store tx.old.conn.now) (state S.Store tx.new.conn.now) result }
    ensures formed { OnOk result (T.table.form.is_key key.now ≡ true) }
    ensures good { OnOk result (T.table.form.is_good row.now ≡ true) }
{
    let mut buffer = String::new(alloc);
    let values = T::bind_row(alloc, key, row, &mut buffer)?;
    tx.execute(T::UPDATE.text(), values.as_slice())
}

/// Takes the rows of a key away.
pub fn remove<T: Record, S: Alter>(
    tx: &mut Transaction<'_, S>,
    key: &T::Key,
) -> Result<usize, Error>
    ensures same_reference { tx.new.conn.ghost_name ≡ tx.old.conn.ghost_name }
    ensures ran { Inside (Removes T.table.search.tree (T.table.search.at key.now)) (state S.Store tx.old.conn.now) (state S.Store tx.new.conn.now) result }
    ensures open { Opens (state S.Store tx.old.conn.now) (state S.Store tx.new.conn.now) result }
    ensures formed { OnOk result (T.table.form.is_key key.now ≡ true) }
{
    let values = T::bind_key(key)?;
    tx.execute(T::writes().delete(), values.as_slice())
}
