//! Connections, served one after the other.
ghost use Rattle.std.specs.Prelude.{◌≡◌, ℕ, true, List, [], ◌∷◌, Some, IfSome};
ghost use Rattle.review_words.specs.declared.{command.Delivery.Delivery, reply.Reply.Reply};
ghost use Rattle.review_http.specs.Peers.{ServedOne, ServedAll, WereTold};

use crate::serve::serve_request;
use review_http_requests::{Counted, PathTable};
use review_machine_deliveries::Rules;
use review_machine_rows::Shelf;
use std::alloc::Global;
use std::io::{Read, Write};

/// Where connections come from, one after the other: each with a reader of what its peer sends and a writer of what the peer is sent.
pub trait Connections {
    ghost use Rattle.std.specs.Prelude.{◌≡◌, ℕ, Bool, true, false, List, [], ◌∷◌, Option, Some, IfOk, IfErr, IfSome, OnOk};
    ghost use Rattle.review_http.specs.Peers.{Came, WereTold};

    /// What the peers of the connections to come send, in order, where that is known. Of sockets it isn't.
    ghost coming: { Self → Option (List (List ℕ)) };

    /// What the peers of the connections that were closed have been sent, in order, where that is known. Of sockets it isn't.
    ghost told: { Self → Option (List (List ℕ)) };

    /// Whether no connection is open: each that was accepted is closed.
    ghost is_idle: { Self → Bool };

    /// What the peer sends.
    type Reader: Read + Drop;

    /// What the peer is sent.
    type Writer: Write + Drop;

    /// Begins to listen, where it doesn't yet, and says so to whoever waits for it.
    fn listen(&mut self) -> Result<(), ConnectionsFault>
        requires idle { is_idle self.old ≡ true }
        ensures coming { OnOk result (coming self.new ≡ coming self.old) }
        ensures told { told self.new ≡ told self.old }
        ensures idle { is_idle self.new ≡ true };

    /// The next connection, once the one before is closed. Its writer holds nothing yet.
    fn accept(&mut self) -> Result<(Self::Reader, Self::Writer), ConnectionsFault>
        requires idle { is_idle self.old ≡ true }
        ensures busy { IfOk result (λ accepted. is_idle self.new ≡ false) }
        ensures none { IfErr result (λ fault. is_idle self.new ≡ true) }
        ensures coming { IfOk result (λ accepted. Came (coming self.old) (Self.Reader.remaining accepted.0 ∷ []) (coming self.new)) }
        ensures told { told self.new ≡ told self.old }
        ensures empty { IfOk result (λ accepted. IfSome (told self.old) (λ before. Self.Writer.contents accepted.1 ≡ Some [])) };

    /// Ends a connection: its peer has been sent what the writer holds, and is sent no more.
    fn close(&mut self, reader: Self::Reader, writer: Self::Writer)
        ensures idle { is_idle self.new ≡ true }
        ensures coming { coming self.new ≡ coming self.old }
        ensures told { IfSome (Self.Writer.contents writer) (λ text. WereTold (told self.old) (text ∷ []) (told self.new)) };
}

/// Why no more connections are served.
#[derive(Clone, Copy, PartialEq, Eq)]
pub enum ConnectionsFault {
    /// Listening or accepting failed.
    Network,
    /// It could not be said that they are listened for.
    Output,
}

/// Serves a connection, whatever becomes of it, and closes it.
fn serve_connection<C: Connections, S: Shelf, D: Rules>(
    alloc: Global,
    paths: &PathTable,
    connections: &mut C,
    reader: C::Reader,
    writer: C::Writer,
    shelf: &mut S,
    rules: &mut D,
)
    requires empty { IfSome (C.told connections.old) (λ before. C.Writer.contents writer ≡ Some []) }
    ensures idle { C.is_idle connections.new ≡ true }
    ensures coming { C.coming connections.new ≡ C.coming connections.old }
    ensures served { (text : List ℕ) × (taken : List (Delivery × Reply))
        × ServedOne S.state (record { input = C.Reader.remaining reader; text = text }) taken shelf.old shelf.new
        × WereTold (C.told connections.old) (text ∷ []) (C.told connections.new) }
{
    let mut reader = Counted::new(reader);
    let mut writer = Counted::new(writer);
    let _ = serve_request(alloc, paths, &mut reader, &mut writer, shelf, rules);
    connections.close(reader.into_inner(), writer.into_inner());
}

/// Serves so many connections, one after the other, each as [`serve_request`] does; it goes on after one that wasn't served to its end. No connection is accepted before the one before
/// is closed. Once the shelf has counted a fault of its store no more is accepted: the result is how many of them are left, which is 0 where all were served.
///
/// Whatever the peers send, repeated, cut short or reordered: what is done to the shelf is a run of the deliveries that the accepted connections' bytes
/// call for, at most one of each and in their order, so from the tables of any history each request of an open epoch acts once. Each peer is sent the response to what it asked
/// for, a first part of it after a fault of its writer, or nothing where it sent nothing, where reading failed or took too many reads, or where there
/// was no memory; and then its connection is closed. What a peer sends and was sent is known of connections that tell it, and not of sockets.
///
/// An error where it can't be listened for connections, or one can't be accepted; the connections before it were served.
pub fn serve_connections<C: Connections, S: Shelf, D: Rules>(
    alloc: Global,
    paths: &PathTable,
    connections: &mut C,
    count: u32,
    shelf: &mut S,
    rules: &mut D,
) -> Result<u32, ConnectionsFault>
    requires idle { C.is_idle connections.old ≡ true }
    ensures idle { C.is_idle connections.new ≡ true }
    ensures served { ServedAll S.state (record { coming = C.coming connections.old; told = C.told connections.old })
        (record { coming = C.coming connections.new; told = C.told connections.new }) count result shelf.old shelf.new }
{
    connections.listen()?;
    let faults = shelf.faults();
    for served in 0..count {
        if shelf.faults() != faults {
            return Ok(count - served);
        }
        let (reader, writer) = connections.accept()?;
        serve_connection(alloc, paths, connections, reader, writer, shelf, rules);
    }
    Ok(0)
}
