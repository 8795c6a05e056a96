//! The program of the desk.
//!
//! `review_desk init FILE` makes an empty desk in a file, `migrate FILE` makes one of an earlier version one of this version, `apply FILE`
//! takes the deliveries of its input, each a line of JSON, and writes a line with the answer to each; `show FILE --change N` and `joined
//! FILE --project P --branch B` show a change and what joined a branch. `serve FILE --port P --count N` takes deliveries over HTTP on
//! loopback. With `apply :memory:` the desk is an empty one in memory.
//!
//! - **Proved**: a job goes on from whatever a file and its log held, and is closed behind it (`ThenClosed`, `IsTold`); `serve` goes on
//!   behind a fault of the store in turns.
//! - **Assumed**: nothing of what a file holds when it is opened (`Unknown`); that the path names it. `docs/proofs.md` has the premises.
//! - **Only tested**: standard input and output, sockets and time limits (`bench/fail_streams`, `bench/fail_connections`,
//!   `bench/desk_times`), stops and kills, the page that `init` writes into a new file (`bench/stops`).
//! - **Must not know**: what a delivery means. No other crate of the program opens files or sockets.
#![tactic(auto)]

mod files;
mod listening;
mod notices;
mod paging;
mod serving;

use crate::files::Starts;
use review_desk_work::{Job, Place, ProgramFault, Task, WordsFault, job_of, status_of};
use review_machine::Outcome;
use sqlite::{Start, Unknown};
use std::env;
use std::io::ErrorKind;
use std::process::ExitCode;

const USAGE: &str = "usage: review_desk COMMAND FILE ..

  init FILE                            makes an empty desk in a new file
  migrate FILE                         makes a desk of an earlier version one of this version
  apply FILE                           takes deliveries from standard input, each a line of JSON, and answers each by a line
  serve FILE --port P --count N        serves N connections over HTTP on port P of 127.0.0.1, one after the other
  show FILE --change N                 shows a change
  joined FILE --project P --branch B   shows the changes that joined a branch

FILE of apply may be :memory:, an empty desk in memory.";

fn apply_in_memory(rt: &HostRuntime) -> Result<Outcome, ProgramFault> {
    match review_machine::apply_in_memory(rt.alloc(), &mut rt.stdin(), &mut rt.stdout()) {
        Ok(outcome) => Ok(outcome),
        Err(fault) => Err(ProgramFault::from(fault)),
    }
}

/// That nothing is known of a file when it is opened, and a write that is cut off by a stop is taken to leave each byte old or new (docs/proofs.md, "Premises").
#[derive(Drop)]
struct Unknowns;

impl Starts<Unknown> for Unknowns {
    fn next(&mut self) -> Unknown {
        Unknown
    }
}

// Does a job: on a file, whatever the file holds, or on an empty desk in memory.
fn run<F: Start, T: Starts<F>>(
    rt: &HostRuntime,
    mut starts: T,
    job: Job<'_>,
) -> Result<Outcome, ProgramFault> {
    let Place::File(file) = job.place() else {
        return apply_in_memory(rt);
    };
    if let Job::Init { .. } = job {
        paging::give_small_pages(rt, file, starts.next());
    }
    let conn = files::open(rt, file, starts.next())?;
    match job {
        Job::Init { .. } => files::init(rt, conn),
        Job::Migrate { .. } => files::migrate(rt, conn),
        Job::Apply { .. } => files::work_on(rt, conn, &Task::Apply),
        Job::Serve { port, count, .. } => files::serve_file(rt, file, starts, conn, port, count),
        Job::Show { change, .. } => files::work_on(rt, conn, &Task::Show { change }),
        Job::Joined {
            project,
            branch,
            ..
        } => files::work_on(rt, conn, &Task::Joined { project, branch }),
    }
}

/// The words after the program's name, where each is UTF-8.
fn words(rt: &HostRuntime) -> Result<Vec<String>, WordsFault> {
    match env::args(rt) {
        Ok(words) => Ok(words.skip(1).collect(rt.alloc())?),
        Err(error) if error.kind() == ErrorKind::OutOfMemory => Err(WordsFault::Memory),
        Err(_) => Err(WordsFault::NotUtf8),
    }
}

/// Tells the fault that ended a job, if one did, and gives its status.
fn end_with(rt: &HostRuntime, ended: Result<Outcome, ProgramFault>) -> ExitCode {
    if let Err(fault) = ended {
        let _ = eprintln!(rt; "review_desk: {fault}");
    }
    ExitCode::from(status_of(ended))
}

/// Says what is wrong with words that ask for no job, unless they ask for help, and then what can be asked for.
fn refuse_words(rt: &HostRuntime, fault: WordsFault) -> ExitCode {
    match fault {
        WordsFault::Memory => end_with(rt, Err(ProgramFault::Memory)),
        _ => {
            if let Some(text) = fault.text() {
                let _ = eprintln!(rt; "review_desk: {text}");
            }
            let _ = eprintln!(rt; "{USAGE}");
            ExitCode::from(2)
        }
    }
}

fn main(rt: HostRuntime) -> ExitCode {
    let words = match words(&rt) {
        Ok(words) => words,
        Err(fault) => return refuse_words(&rt, fault),
    };
    match job_of(rt.alloc(), &words) {
        Ok(job) => end_with(&rt, run(&rt, Unknowns, job)),
        Err(fault) => refuse_words(&rt, fault),
    }
}
