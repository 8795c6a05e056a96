//! Requests over HTTP.
ghost use Rattle.std.specs.Prelude.{◌≡◌, ◌+◌, ◌≤◌, Err, IfSome, length, min};
ghost use Rattle.review_http_requests.specs.Counts.{greatest, one_more};
ghost use Rattle.review_http_requests.specs.Shown.{inner_of, reads_of, faults_of};
ghost use Rattle.review_http.specs.Served.{WasServed};

use crate::rules::DeskRules;
use review_http::{ServeFault, Served, serve_request};
use review_http_requests::{Counted, PathTable};
use review_machine_rows::Shelf;
use std::alloc::Global;
use std::io::{Read, Write};

/// Reads a request, takes the delivery that its bytes call for, and writes the response.
///
/// What is read, taken and written [`review_http::serve_request`] says; the delivery is decided by the desk's own rules. The table of paths is made anew by
/// each call: who serves many connections makes it once, and calls that.
pub fn serve_one<R: Read, W: Write, S: Shelf>(
    alloc: Global,
    reader: &mut Counted<R>,
    writer: &mut Counted<W>,
    shelf: &mut S,
) -> Result<Served, ServeFault>
    ensures served { WasServed S.state (R.remaining (inner_of reader.old)) (R.remaining (inner_of reader.new)) (W.contents (inner_of writer.old)) (W.contents (inner_of writer.new)) result shelf.old shelf.new }
    ensures few { reads_of reader.new ≤ reads_of reader.old + 4096 }
    ensures once { IfSome (R.remaining (inner_of reader.old)) (λ input. reads_of reader.new ≤ reads_of reader.old + length input + 1) }
    ensures reads { result ≡ Err ServeFault.Reads → reads_of reader.new ≡ min (reads_of reader.old + 4096) greatest }
    ensures read { result ≡ Err ServeFault.Read → faults_of reader.new ≡ one_more (faults_of reader.old) }
    ensures write { result ≡ Err ServeFault.Write → faults_of writer.new ≡ one_more (faults_of writer.old) }
{
    let Ok(paths) = PathTable::new(alloc) else {
        return Err(ServeFault::Memory);
    };
    serve_request(
        alloc,
        &paths,
        reader,
        writer,
        shelf,
        &mut DeskRules::new(alloc),
    )
}
