//! A request over a socket of this machine, with both ends in this process, sent twice: each time the peer is sent the same bytes, and no fault is counted where none came.

use crate::fault::Fault;
use review_http::Served;
use review_http_requests::Counted;
use review_machine::{MemoryShelf, serve_one};
use std::alloc::Global;
use std::io;
use std::io::{Read, Write};
use std::net::{TcpListener, TcpStream};
use std::test::Fail;

pub const REQUEST: &str =
    "POST /accounts HTTP/1.1\r\nX-Account: 1\r\nRequest-Id: a1\r\nContent-Length: 14\r\n\r\n{\"name\":\"ann\"}";

pub const RESPONSE: &str =
    "HTTP/1.1 200 OK\r\nContent-Type: application/json; charset=UTF-8\r\nContent-Length: 19\r\nConnection: close\r\n\r\n)]}'\n{\"account\":2}\n";

/// Both ends of a connection on a free port of 127.0.0.1.
fn connected(rt: &HostRuntime) -> io::Result<(TcpStream, TcpStream)> {
    let listener = TcpListener::bind(rt, ("127.0.0.1", 0u16))?;
    let peer = TcpStream::connect(rt, listener.local_addr()?)?;
    let (stream, _) = listener.accept()?;
    Ok((peer, stream))
}

/// All that a peer is sent, of the first 512,000 bytes.
fn received(alloc: Global, peer: &mut TcpStream) -> io::Result<Vec<u8>> {
    let mut response = Vec::new(alloc);
    let mut piece = [0u8; 512];
    for _ in 0..1000u16 {
        let count = peer.read(&mut piece)?;
        if count == 0 {
            break;
        }
        response.extend_from_slice(&piece[..count])?;
    }
    Ok(response)
}

/// Serves the request that comes over a stream on a shelf, and closes the stream: whether it was answered with status 200, and no read and no write was counted as
/// a fault.
fn is_served(alloc: Global, stream: TcpStream, shelf: &mut MemoryShelf) -> io::Result<bool> {
    let mut reader = Counted::new(stream.try_clone()?);
    let mut writer = Counted::new(stream);
    let served = serve_one(alloc, &mut reader, &mut writer, shelf);
    let is_answered = served == Ok(Served::Answered(200));
    Ok(is_answered && reader.faults() == 0 && writer.faults() == 0)
}

/// Whether the request that is sent over a socket is served so, and its peer is sent the response.
fn is_told(rt: &HostRuntime, shelf: &mut MemoryShelf) -> Result<bool, Fault> {
    let (mut peer, stream) = connected(rt)?;
    peer.write_all(REQUEST.as_bytes())?;
    let is_served = is_served(rt.alloc(), stream, shelf)?;
    let response = received(rt.alloc(), &mut peer)?;
    Ok(is_served && response.as_slice() == RESPONSE.as_bytes())
}

fn is_told_twice(rt: &HostRuntime, shelf: &mut MemoryShelf) -> Result<bool, Fault> {
    let first = is_told(rt, shelf)?;
    let second = is_told(rt, shelf)?;
    Ok(first && second)
}

/// Whether a request is answered, and its repeat with the same bytes, on an empty desk in memory.
fn is_told_on_a_new_desk(rt: &HostRuntime) -> Result<bool, Fault> {
    let mut shelf = MemoryShelf::new(rt.alloc())?;
    is_told_twice(rt, &mut shelf)
}

#[test]
fn a_request_over_a_socket(rt: HostRuntime) -> Result<(), Fail> {
    assert!(rt; is_told_on_a_new_desk(&rt)?);
    Ok(())
}
