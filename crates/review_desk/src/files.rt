//! Jobs on a file, which is opened once and closed at the end, when its log is copied into it. `serve_file` opens it again where a fault has shut it.
//!
//! `open` supposes nothing of a file and its log but `F`, which `main` names. A job begins from what the run before left, or a stop of it.
//! Where `serve_file` opens a file again, that is said of each opening by itself.
ghost use Rattle.std.specs.Prelude.{◌≡◌, ◌⊎◌, Bool, true, false, Result, IfOk, IfErr};
ghost use Rattle.{sqlite.specs.Files.over_files, sqlite_wal.specs.Files.image_at};
ghost use Rattle.review_desk_work.specs.Faults.{ClosedAs, IsTold, OpenedFrom, ThenClosed};
ghost use Rattle.review_desk_work.specs.Worked.{ServedInTurns, Known, WasMade, WasMigrated, Worked};

use crate::listening::{Listening, SharedStream};
use crate::notices::StandardError;
use crate::serving::serve_on;
use review_desk_work::{Ends, ProgramFault, Task, after_closing, create, work};
use review_machine::{DeskRules, Outcome};
use sqlite::{Connection, FileFrom, FileStore, Start};
use std::io::{Stdin, Stdout};

pub type FileConnection<F> = Connection<FileStore<FileFrom<F>>>;

type ProgramEnds<'a> = Ends<Stdin, Stdout, Listening<'a>, StandardError<'a>>;

/// What is supposed of a file, each time that it is opened.
pub trait Starts<F>: Drop {
    /// That of the next time.
    fn next(&mut self) -> F;
}

/// A connection that finds what the file and its log hold.
pub fn open<F: Start>(
    rt: &HostRuntime,
    file: &str,
    start: F,
) -> Result<FileConnection<F>, ProgramFault>
    ensures mode { IfOk result (λ conn. conn.in_transaction ≡ false) }
    ensures from { IfOk result (OpenedFrom (image_at F.Start)) }
    ensures cause { IfErr result (λ fault. (fault ≡ ProgramFault.Store) ⊎ (fault ≡ ProgramFault.Memory)) }
{
    match Connection::open_from(rt, file, false, start) {
        Ok(conn) => Ok(conn),
        Err((error, _)) => Err(ProgramFault::of_store(error)),
    }
}

/// Copies the log into the file, and closes both.
pub fn close<F: Start>(conn: FileConnection<F>) -> Result<(), ProgramFault>
    ensures { ClosedAs conn result }
{
    match conn.close_files() {
        Ok(_) => Ok(()),
        Err((error, store)) => {
            drop(store.close());
            Err(ProgramFault::of_store(error))
        }
    }
}

// The program's own ends.
fn ends_of<'a>(rt: &'a HostRuntime, shared_stream: &'a SharedStream, port: u16) -> ProgramEnds<'a>
    ensures unwarned { StandardError.is_warned result.notices ≡ false }
    ensures idle { Listening.is_idle result.connections ≡ true }
{
    Ends {
        input: rt.stdin(),
        output: rt.stdout(),
        connections: Listening::at(rt, shared_stream, port),
        notices: StandardError::new(rt),
    }
}

/// Makes an empty desk over a connection to a new file, and says so once the file is closed.
pub fn init<F: Start>(rt: &HostRuntime, conn: FileConnection<F>) -> Result<Outcome, ProgramFault>
    requires mode { conn.in_transaction ≡ false }
    ensures { (job : Result (Unit {0}) ProgramFault) × ThenClosed (λ last made. WasMade over_files conn last made) job × IsTold job result }
{
    let (last, made) = create(rt.alloc(), conn);
    tell(rt, after_closing(made, close(last)), "desk created")
}

/// Makes the tables of the desk in a file those of the latest version, and says so once the file is closed. Standard error is warned of tables that are not those of
/// a desk alone.
pub fn migrate<F: Start>(rt: &HostRuntime, conn: FileConnection<F>) -> Result<Outcome, ProgramFault>
    requires mode { conn.in_transaction ≡ false }
    ensures { (is_warned : Bool) × (job : Result (Unit {0}) ProgramFault) × ThenClosed (λ last ended. WasMigrated over_files false is_warned ended conn last) job × IsTold job result }
{
    let mut notices = StandardError::new(rt);
    let (last, migrated) = review_desk_work::migrate(rt.alloc(), &mut notices, conn);
    tell(rt, after_closing(migrated, close(last)), "desk migrated")
}

/// Does a task on the desk in a file, which is closed then: from standard input, to standard output. Standard error is warned of tables that are not those of a desk alone.
pub fn work_on<F: Start>(
    rt: &HostRuntime,
    conn: FileConnection<F>,
    task: &Task,
) -> Result<Outcome, ProgramFault>
    requires mode { conn.in_transaction ≡ false }
    ensures { (before : Known) × (after : Known) × (before.is_warned ≡ false) × ThenClosed (λ last ended. Worked over_files task.now before after ended conn last) result }
{
    let mut rules = DeskRules::new(rt.alloc());
    let shared_stream = SharedStream::new();
    let mut ends = ends_of(rt, &shared_stream, 0);
    let (last, ended) = work(rt.alloc(), &mut ends, conn, &mut rules, task);
    after_closing(ended, close(last))
}

/// Serves so many connections on a port, and says how many once the file is closed. Where a fault shuts the file's store it is opened again, as `serve_on` says. Standard error is warned of
/// tables that are not those of a desk alone.
pub fn serve_file<F: Start, T: Starts<F>>(
    rt: &HostRuntime,
    file: &str,
    mut starts: T,
    first: FileConnection<F>,
    port: u16,
    count: u32,
) -> Result<Outcome, ProgramFault>
    requires mode { first.in_transaction ≡ false }
    ensures { (before : Known) × (after : Known) × (before.is_warned ≡ false) × (job : Result Outcome ProgramFault)
        × ServedInTurns over_files first (OpenedFrom (image_at F.Start)) ClosedAs count before after job × IsTold job result }
{
    let mut rules = DeskRules::new(rt.alloc());
    let shared_stream = SharedStream::new();
    let mut ends = ends_of(rt, &shared_stream, port);
    let job = serve_on(rt, file, &mut starts, first, &mut ends, &mut rules, count);
    tell_served(rt, job, count)
}

// Tells that so many connections were served, or why they weren't.
fn tell_served(
    rt: &HostRuntime,
    job: Result<Outcome, ProgramFault>,
    count: u32,
) -> Result<Outcome, ProgramFault>
    ensures { IsTold job result }
{
    match job {
        Ok(_) => match println!(rt; "served {count}") {
            Ok(()) => Ok(Outcome::Complete),
            Err(_) => Err(ProgramFault::Output),
        },
        Err(fault) => Err(fault),
    }
}

// Tells that a job on a file is done, or why it isn't.
fn tell(
    rt: &HostRuntime,
    job: Result<(), ProgramFault>,
    text: &str,
) -> Result<Outcome, ProgramFault>
    ensures { IsTold job result }
{
    match job {
        Ok(()) => match println!(rt; "{text}") {
            Ok(()) => Ok(Outcome::Complete),
            Err(_) => Err(ProgramFault::Output),
        },
        Err(fault) => Err(fault),
    }
}
