//! A shelf in SQLite.
ghost use Rattle.std.specs.Bool.{Decides};
ghost use Rattle.std.specs.Prelude.{ℕ, ◌≡◌, ◌≢◌, ◌≤◌, ◌⊎◌, Some, None, true, false, IfOk, IfErr, IsTrue, min};
ghost use Rattle.{sqlite.specs.Held.state, sqlite.specs.State.HasCleanDisk, review_sql_tables.specs.Desk.schema_0};
ghost use Rattle.review_machine_rows.specs.Rows.{ClosedEpochs, Tables, kept_row};
ghost use Rattle.review_machine_rows.specs.Shelf.{CountsFaults, IsCounted, IsRecalled, greatest_count};
ghost use Rattle.review_sql.specs.Shelf.{IsLookedUpIn, Stays, answer_of};

use crate::faults::DeskFault;
use crate::loading::{Ended, load};
use crate::migrating::bring;
use crate::opening::see;
use crate::serving::{LookedUp, find_stored};
use crate::there::{is_any_there, seen};
use review_machine_rows::{Delta, Kept, Need, Recalled, Rows, Shelf, ShelfFault};
use review_sql_lookups::counts::Counts;
use review_sql_records::rows::{Answered, RequestKey};
use review_sql_writes::Numbers;
use review_sql_writes::creating::make_desk;
use review_sql_writes::writing::transact;
use review_words::{AccountNo, Epoch, RequestId};
use sqlite::{Alter, Connection, Error, ErrorCode};
use sqlite_schema::schema::Schema;
use std::alloc::Global;
use std::marker::{Model, PhantomData};

/// Whose tables a shelf has.
pub trait Origin {
    ghost use Rattle.std.specs.Prelude.{Bool};

    /// Whether they are those that `create` makes.
    ghost IS_OURS: { Bool };

    /// Whether they are those that `create` makes.
    const IS_OURS: bool;
}

/// The tables that `create` makes.
pub struct Ours;

impl Origin for Ours {
    ghost use Rattle.std.specs.Prelude.{true};

    ghost IS_OURS = { true };

    const IS_OURS: bool = true;
}

/// Tables that somebody else made, or to which somebody added others: of a shelf over them no more is claimed than that a desk was there when it was opened.
pub struct Others;

impl Origin for Others {
    ghost use Rattle.std.specs.Prelude.{false};

    ghost IS_OURS = { false };

    const IS_OURS: bool = false;
}

/// A desk in the tables of a connection.
pub struct SqlShelf<S: Alter, O: Origin> {
    conn: Connection<S>,
    numbers: Numbers,
    counts: Counts,
    faults: u64,
    origin: PhantomData<O>,
}

impl<S: Alter + Drop, O: Origin> Drop for SqlShelf<S, O> {
    fn drop(self) {
        let SqlShelf {
            conn: _,
            numbers: _,
            counts: _,
            faults: _,
            origin: _,
        } = self;
    }
}

impl<S: Alter, O: Origin> Model for SqlShelf<S, O> {
    ghost use Rattle.review_sql.specs.Shelf.{ShelfView, view_code, Holds, KnowsCounts};

    ghost Value = { ShelfView S };

    ghost coded = { view_code S.code };

    ghost view = { λ s. record { conn = s.conn; numbers = s.numbers; faults = s.faults } };

    ghost invariant = { λ s. Holds S.Store s.conn O.IS_OURS s.numbers × KnowsCounts S.Store s.conn O.IS_OURS s.counts };
}

/// Whether a store has no table, no index and no view.
pub fn is_blank(schema: &Schema) -> bool
    ensures { Decides result (schema.now ≡ schema_0) }
{
    schema.tables.is_empty() && schema.indexes.is_empty() && schema.views.is_empty()
}

// Whether a shelf may be made over a store with no table, or over one with some: one of ours only over one with none.
fn may_be_made<O: Origin>(is_blank: bool) -> bool
    ensures made { result ≡ true → IsTrue O.IS_OURS → is_blank ≡ true }
    ensures refused { result ≡ false → IsTrue O.IS_OURS × (is_blank ≡ false) }
{
    !O::IS_OURS || is_blank
}

impl<S: Alter + Drop, O: Origin> SqlShelf<S, O> {
    ghost use Rattle.review_sql.specs.Migrated.{IsNotMigrated, IsOpenedAsIs, IsUnfit, IsUpgraded};
    ghost use Rattle.review_sql.specs.Opened.{IsOpened, IsRefused, TellsShut, ReopensLast, IsRefusedAgain, IsDeskThere};
    ghost use Rattle.review_sql.specs.Shelf.{IsCreated, AreLeftOfOurs, IsAnyThere, IsHandedBack, IsUnmade};

    /// Makes an empty desk, in one transaction: over a store with no table as ours. A refusal hands the connection back with its tables as
    /// they were: NotEmpty where a table of one of the names that tables of a desk have in any version is there, and NotOurs where the shelf is to be ours and other tables
    /// are, both with nothing touched.
    pub fn create(
        alloc: Global,
        conn: Connection<S>,
    ) -> Result<SqlShelf<S, O>, (Connection<S>, DeskFault)>
        requires mode { conn.in_transaction ≡ false }
        ensures created { IfOk result (IsCreated S.Store O.IS_OURS conn) }
        ensures mode { IfErr result (λ e. e.0.in_transaction ≡ false) }
        ensures refused { IfErr result (λ e. IsUnmade (state S.Store conn) (state S.Store e.0)) }
        ensures not_empty { IfErr result (λ e. e.1 ≡ DeskFault.NotEmpty → IsTrue (state S.Store e.0).is_open → IsAnyThere conn.schema) }
        ensures untouched { IfErr result (λ e. (e.1 ≡ DeskFault.NotEmpty) ⊎ (e.1 ≡ DeskFault.NotOurs) → Stays (state S.Store conn) (state S.Store e.0)) }
        ensures spared { IfErr result (λ e. IsAnyThere conn.schema → HasCleanDisk (state S.Store e.0) → Stays (state S.Store conn) (state S.Store e.0)) }
        ensures not_ours { IfErr result (λ e. e.1 ≡ DeskFault.NotOurs → IsTrue (state S.Store e.0).is_open → conn.schema ≡ schema_0 → ⊥) }
        ensures beside { IfErr result (λ e. e.1 ≡ DeskFault.NotOurs → IsTrue (state S.Store e.0).is_open → IsAnyThere conn.schema → ⊥) }
        ensures ours { IfErr result (λ e. e.1 ≡ DeskFault.NotOurs → IsTrue O.IS_OURS) }
        ensures kinds { IfErr result (λ e. (e.1 ≢ DeskFault.NotADesk) × (e.1 ≢ DeskFault.WrongVersion)) }
        ensures shut { IfErr result (λ e. TellsShut (state S.Store e.0) e.1) }
    {
        let mut conn = conn;
        match is_any_there(&mut conn) {
            Ok(false) => {}
            Ok(true) => return Err((conn, DeskFault::NotEmpty)),
            Err(error) => return Err((conn, DeskFault::of(error))),
        }
        let is_blank = is_blank(conn.schema());
        if !may_be_made::<O>(is_blank) {
            return Err((conn, DeskFault::NotOurs));
        }
        match make_desk(&mut conn, alloc) {
            Ok(()) => {
                let _settled = conn.is_autocommit();
                Ok(SqlShelf {
                    conn,
                    numbers: Numbers::first(),
                    counts: Counts::new(alloc),
                    faults: 0,
                    origin: PhantomData,
                })
            }
            Err(error) => Err((conn, DeskFault::of(error))),
        }
    }

    /// Opens a desk. Nothing is written, and a refusal hands the connection back with its tables as they were. Whatever the form of the tables,
    /// it is opened only where the table `desk` has one row, which says version 3 and so many requests, all columns of the other tables
    /// are there, and the one row of the table `epochs` says which epoch is the least open one. Looked at in this order, it is NotADesk only where
    /// that row is missing, or says no version; WrongVersion only where it says another, whatever else it says; NotADesk, where it says no requests,
    /// a table is missing or the table `epochs` says no epoch; and NotOurs only where the shelf is to be ours and the tables are of another form
    /// than `create` makes, or two rows of one have the same rowid.
    ///
    /// Over the connection of a shelf that
    /// was closed it is that shelf: it shows the tables that it showed, unless it is shut, and a stop leaves nothing that it could not
    /// leave before, so that runs before and after are one; what a shelf of ours left is refused only for want of memory or a fault of
    /// the store. Calls that were refused are counted from 0.
    pub fn open(
        alloc: Global,
        conn: Connection<S>,
    ) -> Result<SqlShelf<S, O>, (Connection<S>, DeskFault)>
        requires mode { conn.in_transaction ≡ false }
        ensures opened { IfOk result (IsOpened S.Store conn) }
        ensures there { IfOk result (λ s. IsTrue (state S.Store s.conn).is_open → IsDeskThere (state S.Store conn).now s.numbers) }
        ensures goes_on { IfOk result (ReopensLast S.Store O.IS_OURS conn) }
        ensures mode { IfErr result (λ e. e.0.in_transaction ≡ false) }
        ensures refused { IfErr result (λ e. Stays (state S.Store conn) (state S.Store e.0)) }
        ensures cause { IfErr result (λ e. IsTrue (state S.Store e.0).is_open → IsRefused (state S.Store conn) e.1) }
        ensures ours { IfErr result (λ e. e.1 ≡ DeskFault.NotOurs → IsTrue O.IS_OURS) }
        ensures again { IfErr result (λ e. IsRefusedAgain S.Store O.IS_OURS conn e.0 e.1) }
        ensures left { IfErr result (λ e. IsTrue (state S.Store e.0).is_open → AreLeftOfOurs (state S.Store conn).now.trees → (e.1 ≡ DeskFault.Memory) ⊎ (e.1 ≡ DeskFault.Store)) }
        ensures shut { IfErr result (λ e. (e.1 ≡ DeskFault.NotOurs) ⊎ TellsShut (state S.Store e.0) e.1) }
        ensures no_table { IfOk result (λ s. IsTrue (state S.Store s.conn).is_open → conn.schema ≡ schema_0 → ⊥) }
        ensures empty { IfErr result (λ e. IsTrue (state S.Store e.0).is_open → conn.schema ≡ schema_0 → (e.1 ≡ DeskFault.NotADesk) ⊎ ((e.1 ≡ DeskFault.Memory) ⊎ (e.1 ≡ DeskFault.Store))) }
    {
        let mut conn = conn;
        let _live = conn.schema();
        match see(&mut conn, alloc) {
            Ok(seen) => {
                if O::IS_OURS && !seen.is_ours {
                    return Err((conn, DeskFault::NotOurs));
                }
                Ok(SqlShelf {
                    conn,
                    numbers: seen.numbers,
                    counts: Counts::new(alloc),
                    faults: 0,
                    origin: PhantomData,
                })
            }
            Err(fault) => Err((conn, fault)),
        }
    }

    /// Opens a desk whose tables are of version 3, as `open` does, or makes tables of version 1 or 2 those of version 3, in one transaction: the projects of version 1 move to the
    /// table of version 2, where none has a parent, the stored requests to that of version 3, where each has epoch 0, and the table `desk` says version 3. Of tables of ours that are those of a history, as
    /// their version keeps them, the shelf shows those of the same history. A refusal hands the connection back with its tables as they were; a stop
    /// leaves the tables as they were, or, of a desk of version 1 or 2 alone, those of version 3.
    ///
    /// It is NotADesk where the row of the table `desk` is missing or says no version, or says no requests, or a table of its version is missing,
    /// or the table `epochs` of version 3 says no epoch; WrongVersion where it says none of the versions 1 to 3; and NotOurs where the shelf is to be ours and the tables
    /// are of another form than was made here in their version, or two rows of one have the same rowid.
    pub fn migrate(
        alloc: Global,
        conn: Connection<S>,
    ) -> Result<SqlShelf<S, O>, (Connection<S>, DeskFault)>
        requires mode { conn.in_transaction ≡ false }
        ensures migrated { IfOk result (λ s. IsUpgraded S.Store O.IS_OURS conn s ⊎ IsOpenedAsIs S.Store O.IS_OURS conn s) }
        ensures mode { IfErr result (λ e. e.0.in_transaction ≡ false) }
        ensures refused { IfErr result (λ e. IsNotMigrated O.IS_OURS e.1 (state S.Store conn) (state S.Store e.0)) }
        ensures cause { IfErr result (λ e. IsTrue (state S.Store e.0).is_open → IsUnfit (state S.Store conn).now e.1) }
        ensures ours { IfErr result (λ e. e.1 ≡ DeskFault.NotOurs → IsTrue O.IS_OURS) }
        ensures again { IfErr result (λ e. IsRefusedAgain S.Store O.IS_OURS conn e.0 e.1) }
        ensures left { IfErr result (λ e. IsTrue (state S.Store e.0).is_open → AreLeftOfOurs (state S.Store conn).now.trees → (e.1 ≡ DeskFault.Memory) ⊎ (e.1 ≡ DeskFault.Store)) }
        ensures shut { IfErr result (λ e. (e.1 ≡ DeskFault.NotOurs) ⊎ TellsShut (state S.Store e.0) e.1) }
    {
        let mut conn = conn;
        let _live = conn.schema();
        match bring(&mut conn, alloc, O::IS_OURS) {
            Ok(numbers) => {
                let _settled = conn.is_autocommit();
                Ok(SqlShelf {
                    conn,
                    numbers,
                    counts: Counts::new(alloc),
                    faults: 0,
                    origin: PhantomData,
                })
            }
            Err(fault) => Err((conn, fault)),
        }
    }

    /// The connection of the shelf.
    pub fn close(self) -> Connection<S>
        ensures closed { IsHandedBack S.Store O.IS_OURS self result }
        ensures mode { result.in_transaction ≡ false }
    {
        let SqlShelf {
            conn,
            numbers: _,
            counts: _,
            faults: _,
            origin: _,
        } = self;
        conn
    }
}

// Counts a call that is told as a store fault.
fn refuse(faults: &mut u64) -> ShelfFault
    ensures counted { IsCounted result (min faults.old greatest_count) (min faults.new greatest_count) }
    ensures store { result ≡ ShelfFault.Store }
{
    *faults = faults.saturating_add(1);
    ShelfFault::Store
}

// What is told of an error of the store: want of memory where it is open still, and else a fault, which is counted.
fn fault_for<S: Alter>(conn: &mut Connection<S>, faults: &mut u64, error: Error) -> ShelfFault
    requires mode { conn.old.in_transaction ≡ false }
    ensures mode { conn.new.in_transaction ≡ false }
    ensures stays { Stays (state S.Store conn.old) (state S.Store conn.new) }
    ensures memory { result ≡ ShelfFault.Memory → HasCleanDisk (state S.Store conn.new) → IsTrue (state S.Store conn.new).is_open }
    ensures sound { result ≢ ShelfFault.Damaged }
    ensures store { error ≢ Error.SqliteFailure ErrorCode.OutOfMemory → result ≡ ShelfFault.Store }
    ensures counted { IsCounted result (min faults.old greatest_count) (min faults.new greatest_count) }
{
    let error = seen(conn, error);
    match error {
        Error::SqliteFailure(ErrorCode::OutOfMemory) => ShelfFault::Memory,
        _ => refuse(faults),
    }
}

// What is answered of how look-ups ended. No error of the store is among it, so none is told.
fn answered(end: Ended) -> Result<(), ShelfFault>
    ensures { result ≡ answer_of end }
{
    match end {
        Ended::Learnt => Ok(()),
        Ended::NoMemory => Err(ShelfFault::Memory),
        Ended::Damaged => Err(ShelfFault::Damaged),
    }
}

impl<S: Alter, O: Origin> Shelf for SqlShelf<S, O> {
    ghost use Rattle.review_sql.specs.Shelf.{shown, count_fits};

    ghost state = { shown S.Store O.IS_OURS };

    fn recall(
        &mut self,
        alloc: Global,
        caller: AccountNo,
        epoch: Epoch,
        id: &RequestId,
    ) -> Result<Recalled, ShelfFault> {
        let key = RequestKey {
            caller,
            epoch,
            id: id.copy()?,
        };
        let _settled = self.conn.is_autocommit();
        match find_stored(&mut self.conn, alloc, &key, self.numbers.least) {
            Ok(looked) => recalled(key, looked),
            Err(error) => Err(fault_for(&mut self.conn, &mut self.faults, error)),
        }
    }

    fn load(&mut self, alloc: Global, need: &Need, rows: &mut Rows) -> Result<(), ShelfFault> {
        let _settled = self.conn.is_autocommit();
        match load(&mut self.conn, alloc, &need.wants, &mut self.counts, rows) {
            Ok(end) => answered(end),
            Err(error) => {
                self.counts = Counts::new(alloc);
                Err(fault_for(&mut self.conn, &mut self.faults, error))
            }
        }
    }

    fn commit(&mut self, alloc: Global, delta: Delta, kept: Kept) -> Result<(), ShelfFault> {
        let numbers = self.numbers;
        let Some(more) = numbers.with_request(delta.least_epoch) else {
            drop(delta);
            drop(kept);
            return Err(refuse(&mut self.faults));
        };
        let _live = self.conn.schema();
        let written = transact(&mut self.conn, alloc, &delta, &kept, &numbers);
        drop(kept);
        match written {
            Ok(()) => {
                let _settled = self.conn.is_autocommit();
                self.numbers = more;
                self.counts.note(&delta);
                drop(delta);
                Ok(())
            }
            Err(error) => {
                drop(delta);
                Err(fault_for(&mut self.conn, &mut self.faults, error))
            }
        }
    }

    fn faults(&self) -> u64 {
        self.faults
    }

    ghost fits = { λ k. count_fits k.faults };
}

// What is told of an identity of which this was seen.
#[tactic(auto, using(crate::proofs::Recalled::kept_told))]
fn recalled(key: RequestKey, looked: LookedUp) -> Result<Recalled, ShelfFault>
    ensures told { (t : Tables) → IsLookedUpIn t (record { caller = key.caller; epoch = key.epoch; id = key.id }) looked → IfOk result (IsRecalled t (record { caller = key.caller; epoch = key.epoch; id = key.id })) }
    ensures damaged { IfErr result (λ e. (e ≡ ShelfFault.Damaged) × (looked ≡ LookedUp.Open (Some None))) }
    ensures counted { (n : ℕ) → CountsFaults result n n }
{
    match looked {
        LookedUp::Closed => Ok(Recalled::Closed),
        LookedUp::Open(Some(Some(row))) => Ok(Recalled::Kept(kept_of(key, row))),
        LookedUp::Open(Some(None)) => Err(ShelfFault::Damaged),
        LookedUp::Open(None) => Ok(Recalled::Fresh),
    }
}

// A stored request with its identity.
fn kept_of(key: RequestKey, row: Answered) -> Kept
    ensures { kept_row result ≡ record { identity = record { caller = key.caller; epoch = key.epoch; id = key.id }; request = row.request; content = row.content; reply = row.reply } }
{
    let RequestKey { caller, epoch, id } = key;
    let Answered {
        request,
        content,
        reply,
    } = row;
    Kept {
        caller,
        epoch,
        id,
        request,
        content: content.into_string(),
        reply: reply.into_string(),
    }
}
