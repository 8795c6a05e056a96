//! Tasks on the tables of a connection, which is handed back in no transaction.
//!
//! Tables of the form that `create` makes are opened as ours, of which all is claimed that a shelf promises, and others as those of others, of which no more is
//! than that a desk was there, and how refused calls are counted.
ghost use Rattle.std.specs.Prelude.{◌≡◌, ◌⊎◌, ◌||◌, true, false, not};
ghost use Rattle.sqlite.specs.Held.{Held};
ghost use Rattle.review_sql.specs.Shelf.{IsHandedBack, ShelfView, shown};
ghost use Rattle.review_desk_work.specs.Faults.{lines_outcome, serve_outcome, shown_outcome};
ghost use Rattle.review_desk_work.specs.Worked.{Does, HasDone, IsMigratedOrNot, IsRefusedDesk, Made, OnShelf, RunsAreOne, WasMade, WasMigrated, Worked, known};

use crate::fault::ProgramFault;
use crate::notices::Notices;
use crate::task::{Ends, Task};
use crate::{ShowFault, joined_lines, show_lines};
use review_http::{Connections, ConnectionsFault, serve_connections};
use review_http_requests::PathTable;
use review_json_lines::{Fault, Outcome, apply_lines};
use review_machine_deliveries::{Rules, restart_completes, runs_compose, runs_go_on};
use review_machine_rows::Shelf;
use review_sql::faults::DeskFault;
use review_sql::laws::stop_leaves_desk;
use review_sql::shelf::{Origin, Others, Ours, SqlShelf, is_blank};
use sqlite::{Alter, Connection};
use std::alloc::Global;
use std::io::{Read, Write};

/// Makes an empty desk: one of ours in a store with no table.
pub fn create<S: Alter + Drop>(
    alloc: Global,
    conn: Connection<S>,
) -> (Connection<S>, Result<(), ProgramFault>)
    requires mode { conn.in_transaction ≡ false }
    ensures mode { result.0.in_transaction ≡ false }
    ensures made { WasMade S.Store conn result.0 result.1 }
{
    if is_blank(conn.schema()) {
        create_as::<S, Ours>(alloc, conn)
    } else {
        create_as::<S, Others>(alloc, conn)
    }
}

fn create_as<S: Alter + Drop, O: Origin>(
    alloc: Global,
    conn: Connection<S>,
) -> (Connection<S>, Result<(), ProgramFault>)
    requires mode { conn.in_transaction ≡ false }
    ensures mode { result.0.in_transaction ≡ false }
    ensures made { Made S.Store O.IS_OURS conn result.0 result.1 }
{
    match SqlShelf::<S, O>::create(alloc, conn) {
        Ok(shelf) => (shelf.close(), Ok(())),
        Err((conn, fault)) => (conn, Err(ProgramFault::from(fault))),
    }
}

/// Makes the tables of an earlier version those of the latest, and leaves those of the latest, as `SqlShelf::migrate` says. It tells where the tables that were
/// migrated are not ours, and only there.
pub fn migrate<N: Notices, S: Alter + Drop>(
    alloc: Global,
    notices: &mut N,
    conn: Connection<S>,
) -> (Connection<S>, Result<(), ProgramFault>)
    requires mode { conn.in_transaction ≡ false }
    ensures mode { result.0.in_transaction ≡ false }
    ensures migrated { WasMigrated S.Store (N.is_warned notices.old) (N.is_warned notices.new) result.1 conn result.0 }
{
    match SqlShelf::<S, Ours>::migrate(alloc, conn) {
        Ok(shelf) => (shelf.close(), Ok(())),
        Err((conn, DeskFault::NotOurs)) => migrate_others(alloc, notices, conn),
        Err((conn, fault)) => (conn, Err(ProgramFault::from(fault))),
    }
}

fn migrate_others<N: Notices, S: Alter + Drop>(
    alloc: Global,
    notices: &mut N,
    conn: Connection<S>,
) -> (Connection<S>, Result<(), ProgramFault>)
    requires mode { conn.in_transaction ≡ false }
    ensures mode { result.0.in_transaction ≡ false }
    ensures migrated { IsMigratedOrNot S.Store false (N.is_warned notices.old) (N.is_warned notices.new) result.1 conn result.0 }
{
    match SqlShelf::<S, Others>::migrate(alloc, conn) {
        Ok(shelf) => {
            notices.warn();
            (shelf.close(), Ok(()))
        }
        Err((conn, fault)) => (conn, Err(ProgramFault::from(fault))),
    }
}

/// Does a task on the desk in the tables of a connection. Where it takes lines: with the runs that were made over this connection before, closed and opened
/// again between them, it is one run; what a stop left is a desk again, and the whole input sent again after it completes the run (`RunsAreOne`). Before it does the
/// task it tells where the tables are not ours, and only there.
///
/// Errors: that no desk is there, or one of another version; what ends the task early, as [`apply_lines`], [`serve_connections`], `show_lines` and
/// `joined_lines` say; want of memory.
pub fn work<R: Read, W: Write, C: Connections, N: Notices, S: Alter + Drop, D: Rules>(
    alloc: Global,
    ends: &mut Ends<R, W, C, N>,
    conn: Connection<S>,
    rules: &mut D,
    task: &Task,
) -> (Connection<S>, Result<Outcome, ProgramFault>)
    requires idle { C.is_idle ends.old.connections ≡ true }
    requires mode { conn.in_transaction ≡ false }
    ensures mode { result.0.in_transaction ≡ false }
    ensures done { Worked S.Store task.now (known R.remaining W.contents C.coming C.told N.is_warned ends.old) (known R.remaining W.contents C.coming C.told N.is_warned ends.new) result.1 conn result.0 }
    ensures restarts { RunsAreOne S.Store }
    ensures idle { C.is_idle ends.new.connections ≡ true }
{
    runs_are_one::<S>();
    match SqlShelf::<S, Ours>::open(alloc, conn) {
        Ok(shelf) => work_on_shelf(alloc, ends, shelf, rules, task),
        Err((conn, DeskFault::NotOurs)) => work_on_others(alloc, ends, conn, rules, task),
        Err((conn, fault)) => (conn, Err(ProgramFault::from(fault))),
    }
}

// The laws by which runs are one.
fn runs_are_one<S: Alter + Drop>()
    ensures { RunsAreOne S.Store }
{
    runs_compose();
    runs_go_on::<SqlShelf<S, Ours>>();
    restart_completes();
    stop_leaves_desk::<S>();
}

fn work_on_others<R: Read, W: Write, C: Connections, N: Notices, S: Alter + Drop, D: Rules>(
    alloc: Global,
    ends: &mut Ends<R, W, C, N>,
    conn: Connection<S>,
    rules: &mut D,
    task: &Task,
) -> (Connection<S>, Result<Outcome, ProgramFault>)
    requires idle { C.is_idle ends.old.connections ≡ true }
    requires mode { conn.in_transaction ≡ false }
    ensures mode { result.0.in_transaction ≡ false }
    ensures done { OnShelf S.Store false (Does task.now (known R.remaining W.contents C.coming C.told N.is_warned ends.old) (known R.remaining W.contents C.coming C.told N.is_warned ends.new) result.1) conn result.0
        ⊎ IsRefusedDesk S.Store (known R.remaining W.contents C.coming C.told N.is_warned ends.old) (known R.remaining W.contents C.coming C.told N.is_warned ends.new) conn result.0 result.1 }
    ensures idle { C.is_idle ends.new.connections ≡ true }
{
    match SqlShelf::<S, Others>::open(alloc, conn) {
        Ok(shelf) => work_on_shelf(alloc, ends, shelf, rules, task),
        Err((conn, fault)) => (conn, Err(ProgramFault::from(fault))),
    }
}

fn work_on_shelf<
    R: Read,
    W: Write,
    C: Connections,
    N: Notices,
    S: Alter + Drop,
    O: Origin,
    D: Rules,
>(
    alloc: Global,
    ends: &mut Ends<R, W, C, N>,
    shelf: SqlShelf<S, O>,
    rules: &mut D,
    task: &Task,
) -> (Connection<S>, Result<Outcome, ProgramFault>)
    requires idle { C.is_idle ends.old.connections ≡ true }
    ensures mode { result.0.in_transaction ≡ false }
    ensures done { (left : ShelfView S)
        × Does task.now (known R.remaining W.contents C.coming C.told N.is_warned ends.old) (known R.remaining W.contents C.coming C.told N.is_warned ends.new) result.1 O.IS_OURS (shown S.Store O.IS_OURS) shelf left
        × IsHandedBack S.Store O.IS_OURS left result.0 }
    ensures idle { C.is_idle ends.new.connections ≡ true }
{
    warn_of::<O, N>(&mut ends.notices);
    let mut shelf = shelf;
    let ended = do_task::<R, W, C, N, SqlShelf<S, O>, O, D>(alloc, ends, &mut shelf, rules, task);
    (shelf.close(), ended)
}

// Tells of tables that are not ours.
fn warn_of<O: Origin, N: Notices>(notices: &mut N)
    ensures { N.is_warned notices.new ≡ (not O.IS_OURS || N.is_warned notices.old) }
{
    if !O::IS_OURS {
        notices.warn();
    }
}

// Does a task on a shelf over tables of this origin; where they are not ours, that was told before.
fn do_task<R: Read, W: Write, C: Connections, N: Notices, S: Shelf, O: Origin, D: Rules>(
    alloc: Global,
    ends: &mut Ends<R, W, C, N>,
    shelf: &mut S,
    rules: &mut D,
    task: &Task,
) -> Result<Outcome, ProgramFault>
    requires idle { C.is_idle ends.old.connections ≡ true }
    requires warned { not O.IS_OURS ≡ true → N.is_warned ends.old.notices ≡ true }
    ensures done { HasDone S.state task.now (known R.remaining W.contents C.coming C.told N.is_warned ends.old) (known R.remaining W.contents C.coming C.told N.is_warned ends.new) result shelf.old shelf.new }
    ensures quiet { N.is_warned ends.new.notices ≡ N.is_warned ends.old.notices }
    ensures idle { C.is_idle ends.new.connections ≡ true }
{
    match task {
        Task::Apply => {
            lines_outcome(apply_lines(alloc, &mut ends.input, &mut ends.output, shelf, rules))
        }
        Task::Serve { count } => match PathTable::new(alloc) {
            Ok(paths) => {
                let connections = &mut ends.connections;
                let served = serve_connections(alloc, &paths, connections, *count, shelf, rules);
                drop(paths);
                serve_outcome(served)
            }
            Err(_) => Err(ProgramFault::Memory),
        },
        Task::Show { change } => {
            shown_outcome(show_lines(alloc, shelf, rules, *change, &mut ends.output))
        }
        Task::Joined { project, branch } => {
            shown_outcome(joined_lines(alloc, shelf, rules, project, branch, &mut ends.output))
        }
    }
}

fn serve_outcome(served: Result<u32, ConnectionsFault>) -> Result<Outcome, ProgramFault>
    ensures { result ≡ serve_outcome served }
{
    match served {
        Ok(0) => Ok(Outcome::Complete),
        Ok(left) => Err(ProgramFault::ServedInPart { left }),
        Err(fault) => Err(ProgramFault::from(fault)),
    }
}

fn lines_outcome(ended: Result<Outcome, Fault>) -> Result<Outcome, ProgramFault>
    ensures { result ≡ lines_outcome ended }
{
    match ended {
        Ok(outcome) => Ok(outcome),
        Err(fault) => Err(ProgramFault::from(fault)),
    }
}

fn shown_outcome(shown: Result<(), ShowFault>) -> Result<Outcome, ProgramFault>
    ensures { result ≡ shown_outcome shown }
{
    match shown {
        Ok(()) => Ok(Outcome::Complete),
        Err(fault) => Err(ProgramFault::from(fault)),
    }
}
