//! One request, taken and answered.
ghost use Rattle.std.specs.Io.KnownBytes.{Appends};
ghost use Rattle.std.specs.Prelude.{◌≡◌, ◌+◌, ◌≤◌, ℕ, List, length, Err, IfSome, min};
ghost use Rattle.review_http_requests.specs.Counts.{greatest, one_more};
ghost use Rattle.review_http_requests.specs.Shown.{inner_of, reads_of, faults_of};
ghost use Rattle.review_http.specs.Served.{IsWritten, WasServed};

use crate::response::response_of;
use crate::status::status_of;
use review_http_requests::{
    Counted, HttpFault, PathTable, RequestFault, read_request, write_and_flush,
};
use review_machine_deliveries::{Rules, deliver};
use review_machine_rows::Shelf;
use review_words::Reply;
use std::alloc::Global;
use std::io::{Read, Write};

/// How a request was served.
#[derive(Clone, Copy, PartialEq, Eq)]
pub enum Served {
    /// A response of this status was written.
    Answered(u16),
    /// The input ended before its first byte, and nothing was written.
    Empty,
}

/// Why a request was not served to its end.
#[derive(Clone, Copy, PartialEq, Eq)]
pub enum ServeFault {
    /// The reader failed. Nothing was taken or written.
    Read,
    /// 4,096 reads were not enough. Nothing was taken or written.
    Reads,
    /// The writer failed, or took no byte. What was asked for stands, and a part of the response may be out.
    Write,
    /// There was no memory. Nothing was written; nothing was taken, or the delivery stands.
    Memory,
}

/// Writes the response that tells a reply or a fault.
fn tell<W: Write>(
    alloc: Global,
    writer: &mut Counted<W>,
    told: Result<Reply, HttpFault>,
) -> Result<Served, ServeFault>
    ensures written { (text : List ℕ) × Appends (W.contents (inner_of writer.old)) (W.contents (inner_of writer.new)) text × IsWritten told text result }
    ensures write { result ≡ Err ServeFault.Write → faults_of writer.new ≡ one_more (faults_of writer.old) }
{
    let status = status_of(&told);
    let response = response_of(alloc, &told);
    drop(told);
    let Ok(response) = response else {
        return Err(ServeFault::Memory);
    };
    match write_and_flush(writer, response.as_slice()) {
        Ok(()) => Ok(Served::Answered(status)),
        Err(_) => Err(ServeFault::Write),
    }
}

/// Reads a request, takes the delivery that its bytes call for, and writes the response.
///
/// What is written is the response to the reply, or to the first fault of the request, for the bytes that were read, however they were cut, and
/// nothing else; after Write a first part of it is out. The delivery is taken as `deliver` takes it; a fault of the request, Empty, Read and
/// Reads leave the shelf as it was. After Memory nothing was written, and either nothing was taken or the delivery stands.
///
/// It makes at most 4,096 reads, and at most one that gives no byte; it answers Read, Reads and Write only where the counts show it, and Read and
/// Reads only where no whole request, and no fault of its head, was there yet.
pub fn serve_request<R: Read, W: Write, S: Shelf, D: Rules>(
    alloc: Global,
    paths: &PathTable,
    reader: &mut Counted<R>,
    writer: &mut Counted<W>,
    shelf: &mut S,
    rules: &mut D,
) -> Result<Served, ServeFault>
    ensures served { WasServed S.state (R.remaining (inner_of reader.old)) (R.remaining (inner_of reader.new)) (W.contents (inner_of writer.old)) (W.contents (inner_of writer.new)) result shelf.old shelf.new }
    ensures few { reads_of reader.new ≤ reads_of reader.old + 4096 }
    ensures once { IfSome (R.remaining (inner_of reader.old)) (λ input. reads_of reader.new ≤ reads_of reader.old + length input + 1) }
    ensures reads { result ≡ Err ServeFault.Reads → reads_of reader.new ≡ min (reads_of reader.old + 4096) greatest }
    ensures read { result ≡ Err ServeFault.Read → faults_of reader.new ≡ one_more (faults_of reader.old) }
    ensures write { result ≡ Err ServeFault.Write → faults_of writer.new ≡ one_more (faults_of writer.old) }
{
    match read_request(alloc, paths, reader) {
        Ok(delivery) => {
            let reply = deliver(alloc, shelf, rules, &delivery);
            drop(delivery);
            tell(alloc, writer, Ok(reply))
        }
        Err(RequestFault::Http(fault)) => tell(alloc, writer, Err(fault)),
        Err(RequestFault::Empty) => Ok(Served::Empty),
        Err(RequestFault::Read) => Err(ServeFault::Read),
        Err(RequestFault::Reads) => Err(ServeFault::Reads),
        Err(RequestFault::Memory) => Err(ServeFault::Memory),
    }
}
