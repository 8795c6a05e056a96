//! A request over HTTP whose reader or writer fails at a call, one that comes by the byte, and one of which a call of the shelf fails: what its peer is sent and what the
//! tables have, by docs/http.md, and that it is told the same 200 when it is sent again.

use crate::fault::Fault;
use crate::shelves::{account_of, recall};
use crate::sockets::{REQUEST, RESPONSE};
use review_http::{ServeFault, Served};
use review_http_requests::Counted;
use review_machine::{MemoryShelf, serve_one};
use review_machine_rows::Shelf;
use review_memory::FaultyShelf;
use std::alloc::Global;
use std::io;
use std::io::{ErrorKind, Read, Write};
use std::test::Fail;

const NOT_TAKEN: &str =
    "HTTP/1.1 503 Service Unavailable\r\nContent-Type: application/json; charset=UTF-8\r\nContent-Length: 27\r\nConnection: close\r\n\r\n)]}'\n{\"not_taken\":\"STORE\"}\n";

/// Takes a turn: false where it is the one that fails, the first of those to come where `turn` is 1. With 0 none does.
fn passes(turn: &mut u64) -> bool {
    let passes = *turn != 1;
    *turn = turn.saturating_sub(1);
    passes
}

/// A reader that gives at most so many bytes a call, of which one fails.
#[derive(Drop)]
struct Input<'a> {
    rest: &'a [u8],
    piece: usize,
    turn: u64,
}

impl Read for Input<'_> {
    fn read(&mut self, buf: &mut [u8]) -> io::Result<usize> {
        if passes(&mut self.turn) {
            let count = self.piece.min(buf.len());
            return self.rest.read(&mut buf[..count]);
        }
        Err(io::Error::from(ErrorKind::ConnectionReset))
    }
}

fn sent(request: &str, piece: usize, turn: u64) -> Input<'_> {
    Input {
        rest: request.as_bytes(),
        piece,
        turn,
    }
}

/// A writer that takes at most 16 bytes a call, of which one fails, or takes none.
#[derive(Drop)]
struct Output {
    bytes: Vec<u8>,
    turn: u64,
    is_full: bool,
}

impl Write for Output {
    fn write(&mut self, buf: &[u8]) -> io::Result<usize> {
        if passes(&mut self.turn) {
            let count = buf.len().min(16);
            self.bytes.extend_from_slice(&buf[..count])?;
            return Ok(count);
        }
        if self.is_full {
            return Ok(0);
        }
        Err(io::Error::from(ErrorKind::ConnectionReset))
    }

    fn flush(&mut self) -> io::Result<()> {
        if passes(&mut self.turn) {
            return Ok(());
        }
        Err(io::Error::from(ErrorKind::ConnectionReset))
    }
}

fn taken(alloc: Global, turn: u64, is_full: bool) -> Output {
    Output {
        bytes: Vec::new(alloc),
        turn,
        is_full,
    }
}

/// How a request was served, and what its peer was sent.
#[derive(Drop)]
struct Exchange {
    served: Result<Served, ServeFault>,
    bytes: Vec<u8>,
}

fn serve<S: Shelf>(alloc: Global, shelf: &mut S, sent: Input<'_>, taken: Output) -> Exchange {
    let mut reader = Counted::new(sent);
    let mut writer = Counted::new(taken);
    let served = serve_one(alloc, &mut reader, &mut writer, shelf);
    let Output { bytes, .. } = writer.into_inner();
    Exchange { served, bytes }
}

/// Whether a request that comes in such pieces is told that account 2 was made.
fn is_told<S: Shelf>(alloc: Global, shelf: &mut S, request: &str, piece: usize) -> bool {
    let it = serve(
        alloc,
        shelf,
        sent(request, piece, 0),
        taken(alloc, 0, false),
    );
    it.served == Ok(Served::Answered(200)) && it.bytes.as_slice() == RESPONSE.as_bytes()
}

/// Whether account 2 has the name, and the request is stored.
fn is_made<S: Shelf>(alloc: Global, shelf: &mut S) -> Result<bool, Fault> {
    let ann = account_of(alloc, shelf, "ann")?;
    let request = recall(alloc, shelf, "a1")?;
    Ok(ann == "account 2" && request == "recalled")
}

/// Whether nobody has the name, and no request is stored.
fn is_untouched<S: Shelf>(alloc: Global, shelf: &mut S) -> Result<bool, Fault> {
    let ann = account_of(alloc, shelf, "ann")?;
    let request = recall(alloc, shelf, "a1")?;
    Ok(ann == "nobody" && request == "unknown")
}

/// Whether a request is told nothing, for this cause, and leaves nothing on a new desk; sent again at once it is served.
fn is_lost(alloc: Global, sent: Input<'_>, cause: ServeFault) -> Result<bool, Fault> {
    let mut shelf = MemoryShelf::new(alloc)?;
    let it = serve(alloc, &mut shelf, sent, taken(alloc, 0, false));
    let is_untouched = is_untouched(alloc, &mut shelf);
    let is_told = is_told(alloc, &mut shelf, REQUEST, 4096);
    Ok(it.served == Err(cause) && it.bytes.is_empty() && is_untouched? && is_told)
}

/// The request has 91 bytes, which are six reads.
#[test]
fn a_read_that_fails_leaves_nothing(rt: HostRuntime) -> Result<(), Fail> {
    for turn in 1..=6u64 {
        assert!(rt; is_lost(rt.alloc(), sent(REQUEST, 16, turn), ServeFault::Read)?);
    }
    Ok(())
}

/// Whether a request is told this first part of its response, and stands on a new desk; sent again it is told the whole.
fn is_cut_off(alloc: Global, taken: Output, part: usize) -> Result<bool, Fault> {
    let mut shelf = MemoryShelf::new(alloc)?;
    let it = serve(alloc, &mut shelf, sent(REQUEST, 4096, 0), taken);
    let is_made = is_made(alloc, &mut shelf);
    let is_told = is_told(alloc, &mut shelf, REQUEST, 4096);
    let is_part = RESPONSE.as_bytes().starts_with(it.bytes.as_slice()) && it.bytes.len() == part;
    Ok(it.served == Err(ServeFault::Write) && is_part && is_made? && is_told)
}

/// The response has 124 bytes, which are eight writes; the ninth call is a flush.
#[test]
fn a_write_that_fails_leaves_a_request_that_stands(rt: HostRuntime) -> Result<(), Fail> {
    for passed in 0..8u8 {
        let turn = u64::from(passed) + 1;
        let part = usize::from(passed) * 16;
        assert!(rt; is_cut_off(rt.alloc(), taken(rt.alloc(), turn, false), part)?);
        assert!(rt; is_cut_off(rt.alloc(), taken(rt.alloc(), turn, true), part)?);
    }
    assert!(rt; is_cut_off(rt.alloc(), taken(rt.alloc(), 9, false), 124)?);
    Ok(())
}

/// The request with so many spaces in its body, which has four digits of bytes.
fn spaced(alloc: Global, spaces: u16) -> Result<String, Fault> {
    let length = u32::from(spaces) + 14;
    let mut request = format!(in alloc;
        "POST /accounts HTTP/1.1\r\nX-Account: 1\r\nRequest-Id: a1\r\nContent-Length: {length}\r\n\r\n{{\"name\":\"ann\""
    )?;
    for _ in 0..spaces {
        request.push(' ')?;
    }
    request.push('}')?;
    Ok(request)
}

/// Whether a request that comes in such pieces is served on a new desk, and makes an account.
fn is_pieced(alloc: Global, request: &str, piece: usize) -> Result<bool, Fault> {
    let mut shelf = MemoryShelf::new(alloc)?;
    let is_told = is_told(alloc, &mut shelf, request, piece);
    let is_made = is_made(alloc, &mut shelf);
    Ok(is_told && is_made?)
}

/// There are 93 bytes beside the spaces, and there may be 4,096 reads.
#[test]
fn a_request_that_comes_by_the_byte(rt: HostRuntime) -> Result<(), Fail> {
    let longest = spaced(rt.alloc(), 4003)?;
    assert!(rt; is_pieced(rt.alloc(), longest.as_str(), 1)?);
    let longer = spaced(rt.alloc(), 4004)?;
    assert!(rt; is_lost(rt.alloc(), sent(longer.as_str(), 1, 0), ServeFault::Reads)?);
    let long = spaced(rt.alloc(), 4986)?;
    assert!(rt; is_pieced(rt.alloc(), long.as_str(), 2)?);
    Ok(())
}

/// Whether a request one of whose calls of the shelf fails is told that it was not taken, and leaves nothing; sent again it is served.
fn is_not_taken(alloc: Global, shelf: &mut FaultyShelf<MemoryShelf>) -> Result<bool, Fault> {
    let it = serve(alloc, shelf, sent(REQUEST, 4096, 0), taken(alloc, 0, false));
    let is_refused = it.served == Ok(Served::Answered(503))
        && it.bytes.as_slice() == NOT_TAKEN.as_bytes();
    let is_untouched = is_untouched(alloc, shelf);
    let is_told = is_told(alloc, shelf, REQUEST, 4096);
    let is_made = is_made(alloc, shelf);
    Ok(is_refused && is_untouched? && is_told && is_made?)
}

/// Whether a request is told that it was not taken, and leaves nothing, on a new desk whose call of this number fails.
fn is_not_taken_at(alloc: Global, turn: u64) -> Result<bool, Fault> {
    let mut shelf = FaultyShelf::new(MemoryShelf::new(alloc)?, turn);
    is_not_taken(alloc, &mut shelf)
}

/// Whether the request is served at once on a new desk whose call of this number would fail.
fn is_served_before(alloc: Global, turn: u64) -> Result<bool, Fault> {
    let mut shelf = FaultyShelf::new(MemoryShelf::new(alloc)?, turn);
    Ok(is_told(alloc, &mut shelf, REQUEST, 4096))
}

/// The last call of a request is its commit.
#[test]
fn a_commit_that_fails_is_told_and_leaves_nothing(rt: HostRuntime) -> Result<(), Fail> {
    for turn in 1..=3u64 {
        assert!(rt; is_not_taken_at(rt.alloc(), turn)?);
    }
    assert!(rt; is_served_before(rt.alloc(), 4)?);
    Ok(())
}
