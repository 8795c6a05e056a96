//! Connections on loopback, each with a time of its own.
ghost use Rattle.std.specs.{Duration.as_nanos, Io.ReadsAtMost, Io.WritesAtMost};
ghost use Rattle.std.specs.Prelude.{◌≡◌, ◌⊎◌, ◌≤◌, ◌<◌, ◌+◌, ◌*◌, true, None, IfSome};

use review_http::{Connections, ConnectionsFault};
use std::cell::{Ref, RefCell};
use std::io;
use std::io::{Error, ErrorKind, Read, Write};
use std::net::{Shutdown, TcpListener, TcpStream};
use std::os::fd::OwnedFd;
use std::time::{Duration, Instant};

/// How many seconds a connection may take in all.
const WHOLE_SECONDS: u64 = 30;

/// How many seconds it may take without a byte.
const QUIET_SECONDS: u64 = 10;

/// How long an answered peer may take to say that it has the answer.
const LAST_SECONDS: u64 = 1;

/// How many bytes are written at a time. A peer that doesn't take so many while it is waited for is let go.
const PIECE_BYTES: usize = 65_536;

// How long the next call of a connection of this age may take: so many seconds at most, and not beyond the whole time; none where no time is left.
fn left_of(gone: Duration, seconds: u64) -> Option<Duration>
    ensures some { IfSome result (λ left. 0 < as_nanos left) }
    ensures quiet { IfSome result (λ left. as_nanos left ≤ seconds * 1_000_000_000) }
    ensures whole { IfSome result (λ left. as_nanos gone + as_nanos left ≤ 30_000_000_000) }
    ensures over { result ≡ None → (seconds ≡ 0) ⊎ (30_000_000_000 ≤ as_nanos gone) }
{
    let left = Duration::from_secs(WHOLE_SECONDS).checked_sub(gone)?;
    let most = Duration::from_secs(seconds);
    let next = if most < left { most } else { left };
    if next.is_zero() { None } else { Some(next) }
}

/// The stream of the connection that is open, which its reader and its writer share.
#[derive(Drop)]
pub struct SharedStream {
    stream: RefCell<Option<TcpStream>>,
}

impl SharedStream {
    /// With no connection.
    pub fn new() -> SharedStream {
        SharedStream {
            stream: RefCell::new(None),
        }
    }

    // Puts a stream in place of the one that was open, which is closed.
    fn put(&self, stream: Option<TcpStream>) -> io::Result<()> {
        match self.stream.try_replace(stream) {
            Ok(_) => Ok(()),
            Err(_) => Err(Error::from(ErrorKind::NotConnected)),
        }
    }

    fn shared(&self) -> io::Result<Ref<'_, Option<TcpStream>>> {
        match self.stream.try_borrow() {
            Ok(stream) => Ok(stream),
            Err(_) => Err(Error::from(ErrorKind::NotConnected)),
        }
    }

    fn read_within(&self, left: Duration, buf: &mut [u8]) -> io::Result<usize>
        ensures { ReadsAtMost result buf.new }
    {
        let shared = self.shared()?;
        let Some(stream) = &*shared else {
            return Err(Error::from(ErrorKind::NotConnected));
        };
        stream.set_read_timeout(Some(left))?;
        let mut stream = stream;
        stream.read(buf)
    }

    fn write_within(&self, left: Duration, buf: &[u8]) -> io::Result<usize>
        ensures { WritesAtMost result buf.now }
    {
        let shared = self.shared()?;
        let Some(stream) = &*shared else {
            return Err(Error::from(ErrorKind::NotConnected));
        };
        // A stream has the limit of the listener from the start.
        if left != Duration::from_secs(QUIET_SECONDS) {
            stream.set_write_timeout(Some(left))?;
        }
        let mut stream = stream;
        stream.write(buf)
    }

    // Tells the peer that it is sent no more; where it has gone away there is nobody to tell.
    fn end_writing(&self) {
        if let Ok(shared) = self.shared() {
            if let Some(stream) = &*shared {
                let _ = stream.shutdown(Shutdown::Write);
            }
        }
    }
}

/// Where the program listens for connections: on a port of 127.0.0.1, once it is asked to.
#[derive(Drop)]
pub struct Listening<'a> {
    rt: &'a HostRuntime,
    shared_stream: &'a SharedStream,
    port: u16,
    listener: Option<TcpListener>,
    // Whether the connection that was accepted last is closed.
    is_idle: bool,
}

impl Listening<'_> {
    /// A place that nothing listens at yet, with a line for its connections.
    pub fn at<'a>(rt: &'a HostRuntime, shared_stream: &'a SharedStream, port: u16) -> Listening<'a>
        ensures { result.is_idle ≡ true }
    {
        Listening {
            rt,
            shared_stream,
            port,
            listener: None,
            is_idle: true,
        }
    }
}

/// A connection, with the moment at which its time ends.
#[derive(Drop)]
struct Timed<'a> {
    rt: &'a HostRuntime,
    shared_stream: &'a SharedStream,
    begun: Instant,
}

impl Timed<'_> {
    /// How long the next call may take: so many seconds, or what is left of the whole time. An error where nothing is left.
    fn time_left(&self, seconds: u64) -> io::Result<Duration> {
        match left_of(self.begun.elapsed(self.rt)?, seconds) {
            Some(left) => Ok(left),
            None => Err(Error::from(ErrorKind::TimedOut)),
        }
    }

    /// Reads once, and waits so many seconds at most.
    fn read_within(&self, seconds: u64, buf: &mut [u8]) -> io::Result<usize>
        ensures { ReadsAtMost result buf.new }
    {
        let left = self.time_left(seconds)?;
        self.shared_stream.read_within(left, buf)
    }

    /// Reads what the peer still sends, up to a mebibyte, until it says that it sends no more: if the connection were closed before, the answer
    /// could be lost on its way.
    fn finish(&self) {
        let mut piece = [0u8; 4096];
        for _ in 0..256u16 {
            match self.read_within(LAST_SECONDS, &mut piece) {
                Ok(count) if count > 0 => {}
                _ => return,
            }
        }
    }
}

/// What a peer sends.
#[derive(Drop)]
pub struct Incoming<'a> {
    timed: Timed<'a>,
}

impl Read for Incoming<'_> {
    fn read(&mut self, buf: &mut [u8]) -> io::Result<usize> {
        self.timed.read_within(QUIET_SECONDS, buf)
    }
}

/// What a peer is sent.
#[derive(Drop)]
pub struct Outgoing<'a> {
    timed: Timed<'a>,
    is_late: bool,
}

impl Write for Outgoing<'_> {
    fn write(&mut self, buf: &[u8]) -> io::Result<usize> {
        if self.is_late {
            return Err(Error::from(ErrorKind::TimedOut));
        }
        let left = self.timed.time_left(QUIET_SECONDS)?;
        let piece = &buf[..buf.len().min(PIECE_BYTES)];
        let begun = Instant::now(self.timed.rt)?;
        let taken = self.timed.shared_stream.write_within(left, piece)?;
        // Where the time is over, a part of the piece may have been taken.
        if taken < piece.len() {
            let waited = begun.elapsed(self.timed.rt)?;
            self.is_late = left <= waited;
        }
        Ok(taken)
    }

    fn flush(&mut self) -> io::Result<()> {
        Ok(())
    }
}

// Listens at a port. What is accepted there has the limit of the listener: how long a write may wait.
fn listener_at(rt: &HostRuntime, port: u16) -> io::Result<TcpListener> {
    let listener = TcpListener::bind(rt, ("127.0.0.1", port))?;
    let same = TcpStream::from(OwnedFd::from(listener.try_clone()?));
    same.set_write_timeout(Some(Duration::from_secs(QUIET_SECONDS)))?;
    Ok(listener)
}

impl<'a> Listening<'a> {
    fn next(&self) -> io::Result<(Incoming<'a>, Outgoing<'a>)> {
        let Some(listener) = &self.listener else {
            return Err(Error::from(ErrorKind::NotConnected));
        };
        let (stream, _peer) = listener.accept()?;
        self.shared_stream.put(Some(stream))?;
        let begun = Instant::now(self.rt)?;
        let (rt, shared_stream) = (self.rt, self.shared_stream);
        let incoming = Incoming {
            timed: Timed {
                rt,
                shared_stream,
                begun,
            },
        };
        let outgoing = Outgoing {
            timed: Timed {
                rt,
                shared_stream,
                begun,
            },
            is_late: false,
        };
        Ok((incoming, outgoing))
    }
}

impl<'a> Connections for Listening<'a> {
    ghost use Rattle.std.specs.Prelude.{None};

    ghost coming = { λ _. None };

    ghost told = { λ _. None };

    ghost is_idle = { λ l. l.is_idle };

    type Reader = Incoming<'a>;

    type Writer = Outgoing<'a>;

    fn listen(&mut self) -> Result<(), ConnectionsFault> {
        if self.listener.is_some() {
            return Ok(());
        }
        let Ok(listener) = listener_at(self.rt, self.port) else {
            return Err(ConnectionsFault::Network);
        };
        self.listener = Some(listener);
        match println!(self.rt; "listening on 127.0.0.1:{}", self.port) {
            Ok(()) => Ok(()),
            Err(_) => Err(ConnectionsFault::Output),
        }
    }

    fn accept(&mut self) -> Result<(Incoming<'a>, Outgoing<'a>), ConnectionsFault> {
        match self.next() {
            Ok(accepted) => {
                self.is_idle = false;
                Ok(accepted)
            }
            Err(_) => Err(ConnectionsFault::Network),
        }
    }

    fn close(&mut self, reader: Incoming<'a>, writer: Outgoing<'a>) {
        drop(writer);
        self.shared_stream.end_writing();
        reader.timed.finish();
        let _ = self.shared_stream.put(None);
        self.is_idle = true;
    }
}
