//! Serving on a desk that is opened again where a fault has shut its store.
ghost use Rattle.std.specs.Prelude.{◌≡◌, true, false};
ghost use Rattle.{sqlite.specs.Files.over_files, sqlite_wal.specs.Files.image_at};
ghost use Rattle.review_desk_work.specs.{Faults.ClosedAs, Faults.OpenedFrom, Worked.ServedInTurns, Worked.known};

use crate::files::{FileConnection, Starts, close, open};
use review_desk_work::{
    Ends, MOST_IN_ROW, Notices, ProgramFault, Task, after_closing, is_shut, left_by, row_with, work,
};
use review_http::Connections;
use review_machine::{DeskRules, Outcome};
use sqlite::Start;
use std::io::{Read, Write};

/// Serves so many connections on a desk that was opened. Where the store refuses a call and can still be asked, it goes on with the next connection. Where a fault has shut it, the desk is
/// closed, and opened again before the next connection: up to eight times in a row, where each time only one connection is served until it is shut again.
///
/// Errors: what ends serving, as `work` says; what opening the desk again says; `ServedInPart` where it was opened again eight times in a row, and is shut again; a fault of closing it at the end.
pub fn serve_on<F: Start, T: Starts<F>, R: Read, W: Write, C: Connections, N: Notices>(
    rt: &HostRuntime,
    file: &str,
    starts: &mut T,
    first: FileConnection<F>,
    ends: &mut Ends<R, W, C, N>,
    rules: &mut DeskRules,
    count: u32,
) -> Result<Outcome, ProgramFault>
    requires mode { first.in_transaction ≡ false }
    requires idle { C.is_idle ends.old.connections ≡ true }
    ensures { ServedInTurns over_files first (OpenedFrom (image_at F.Start)) ClosedAs count (known R.remaining W.contents C.coming C.told N.is_warned ends.old) (known R.remaining W.contents C.coming C.told N.is_warned ends.new) result }
{
    let mut conn = first;
    let mut left = count;
    let mut in_row = 0;
    loop {
        let (mut worked, ended) = work(rt.alloc(), ends, conn, rules, &Task::Serve { count: left });
        let Some(rest) = left_by(ended) else {
            return after_closing(ended, close(worked));
        };
        if is_shut(&mut worked) {
            in_row = row_with(in_row, left, rest);
            // Nothing can be copied into the file any more. What the log holds is found when it is opened.
            let _ = close(worked);
            if in_row > MOST_IN_ROW {
                return ended;
            }
            conn = open(rt, file, starts.next())?;
        } else {
            in_row = 0;
            conn = worked;
        }
        left = rest;
    }
}
