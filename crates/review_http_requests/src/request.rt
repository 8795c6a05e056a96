//! A request, read.
ghost use Rattle.std.specs.Prelude.{◌≡◌, ◌+◌, ◌≤◌, length, Err, IfSome, min};
ghost use Rattle.review_http_requests.specs.Counts.{greatest, one_more};
ghost use Rattle.review_http_requests.specs.RequestLaws.{WasTold, IsToldOfInput};
ghost use Rattle.review_http_requests.specs.Shown.{inner_of, reads_of, faults_of};

use crate::fault::RequestFault;
use crate::judge::{Look, judge};
use crate::{Counted, PathTable, Stop, read_more};
use review_words::Delivery;
use std::alloc::Global;
use std::io::Read;

/// Reads a request as the delivery that its bytes call for, or as the first of its faults, however the bytes are cut, in at most 4,096 reads of
/// up to 4,096 bytes each. Bytes behind the request are ignored, though some of them may have been read.
///
/// Empty where the input ended before its first byte; Read where the reader failed, an interrupted read included, before a whole request or a
/// fault of its head was there; Reads where 4,096 reads gave neither. Of the bytes that were read nothing is kept, and at most one read gives none.
pub fn read_request<R: Read>(
    alloc: Global,
    paths: &PathTable,
    reader: &mut Counted<R>,
) -> Result<Delivery, RequestFault>
    ensures told { WasTold (R.remaining (inner_of reader.old)) (R.remaining (inner_of reader.new)) result }
    ensures whole { IfSome (R.remaining (inner_of reader.old)) (λ input. IsToldOfInput input result) }
    ensures few { reads_of reader.new ≤ reads_of reader.old + 4096 }
    ensures once { IfSome (R.remaining (inner_of reader.old)) (λ input. reads_of reader.new ≤ reads_of reader.old + length input + 1) }
    ensures reads { result ≡ Err RequestFault.Reads → reads_of reader.new ≡ min (reads_of reader.old + 4096) greatest }
    ensures read { result ≡ Err RequestFault.Read → faults_of reader.new ≡ one_more (faults_of reader.old) }
{
    let mut bytes = Vec::new(alloc);
    let mut ended = false;
    let mut wanted = 0;
    let mut reads = 0u16;
    loop {
        match judge(alloc, paths, bytes.as_slice(), ended, wanted) {
            Ok(Look::Whole(delivery)) => return Ok(delivery),
            Ok(Look::Wants(count)) => wanted = count,
            Err(fault) => return Err(fault),
        }
        if reads == 4096 {
            return Err(RequestFault::Reads);
        }
        reads += 1;
        match read_more(reader, &mut bytes) {
            Ok(came) => ended = !came,
            Err(Stop::Read) => return Err(RequestFault::Read),
            Err(Stop::Memory) => return Err(RequestFault::Memory),
        }
    }
}
