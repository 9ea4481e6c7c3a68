//! Ways to legs over TCP.

ghost use Rattle.std.specs.Prelude.{◌≡◌, IfOk, take};

use rh_net::{Address, Way};
use std::io::{self, ErrorKind};
use std::net::{self as sockets, TcpListener, TcpStream};
use std::os::fd::OwnedFd;
use std::time::Duration;

/// How long `accept` waits for somebody, in milliseconds.
pub const ACCEPT_WAIT: u64 = 100;

/// How long one read of the system waits for bytes, in milliseconds.
pub(crate) const READ_WAIT: u64 = 1000;

/// A leg that came over TCP, or why none did, for the net to give.
#[derive(Drop)]
pub struct TcpCame {
    pub(crate) leg: io::Result<Handles>,
}

/// Two handles of one socket, of which one reads and the other writes.
#[derive(Drop)]
pub(crate) struct Handles {
    pub(crate) reads: TcpStream,
    pub(crate) writes: TcpStream,
}

/// A way to legs over TCP, with a handle of its own of the net's listener.
///
/// The system goes on to take callers while one handle of the listener is left.
#[derive(Drop)]
pub struct TcpWay<R: sockets::Net<Listener = TcpListener, Stream = TcpStream> + Copy> {
    rt: R,
    listener: Option<TcpListener>,
    write_wait: u32,
}

impl<R: sockets::Net<Listener = TcpListener, Stream = TcpStream> + Copy> TcpWay<R> {
    // A way whose legs fail at a write that makes no progress for so many milliseconds.
    pub(crate) fn new(rt: R, listener: Option<TcpListener>, write_wait: u32) -> TcpWay<R>
        ensures { (result.listener ≡ listener) × (result.write_wait ≡ write_wait) }
    {
        TcpWay {
            rt,
            listener,
            write_wait,
        }
    }

    fn connected(&self, to: &Address) -> io::Result<Handles> {
        handles_of(TcpStream::connect(&self.rt, named(to)?)?, self.write_wait)
    }

    // The leg of who came; `None` where nobody did, or who came had gone again.
    fn accepted(&self) -> io::Result<Option<Handles>> {
        let Some(listener) = &self.listener else {
            return Err(io::Error::from(ErrorKind::NotConnected));
        };
        match listener.accept() {
            Ok((stream, _)) => Ok(Some(handles_of(stream, self.write_wait)?)),
            Err(error) if is_nobody(error.kind()) => Ok(None),
            Err(error) => Err(error),
        }
    }
}

impl<R: sockets::Net<Listener = TcpListener, Stream = TcpStream> + Copy> Way for TcpWay<R> {
    type Came = TcpCame;

    /// A host is a name or an IPv4 address, which the system resolves.
    fn connect(&mut self, to: &Address) -> TcpCame {
        TcpCame {
            leg: self.connected(to),
        }
    }

    /// Waits for `ACCEPT_WAIT` at most.
    fn accept(&mut self) -> Option<TcpCame> {
        match self.accepted() {
            Ok(Some(leg)) => Some(TcpCame { leg: Ok(leg) }),
            Ok(None) => None,
            Err(error) => Some(TcpCame { leg: Err(error) }),
        }
    }
}

/// A listener whose `accept` waits for `ACCEPT_WAIT` at most.
pub(crate) fn listening<R: sockets::Net<Listener = TcpListener, Stream = TcpStream>>(
    rt: &R,
    at: &Address,
) -> io::Result<TcpListener> {
    let listener = TcpListener::bind(rt, named(at)?)?;
    // A listener of std has no timeout of its own, and is a socket as a stream is: the same handle
    // as a stream takes the read timeout, which the system keeps for `accept` too.
    let socket = TcpStream::from(OwnedFd::from(listener));
    socket.set_read_timeout(Some(Duration::from_millis(ACCEPT_WAIT)))?;
    Ok(TcpListener::from(OwnedFd::from(socket)))
}

// The host as text, and the port. Bytes that are no text name no host.
fn named(address: &Address) -> io::Result<(&str, u16)>
    ensures { IfOk result (λ host.
        (host.0.now ≡ take address.now.len address.now.host) × (host.1 ≡ address.now.port)) }
{
    match str::from_utf8(address.host()) {
        Ok(host) => Ok((host, address.port)),
        Err(_) => Err(io::Error::from(ErrorKind::InvalidInput)),
    }
}

// Nobody came within the wait, or who came had gone again.
fn is_nobody(kind: ErrorKind) -> bool {
    matches!(
        kind,
        ErrorKind::WouldBlock | ErrorKind::ConnectionAborted | ErrorKind::Interrupted
    )
}

// The two handles of a socket. Small pieces go out at once (TCP_NODELAY); a write fails where it
// makes no progress for so many milliseconds, and for one where they are 0.
fn handles_of(stream: TcpStream, write_wait: u32) -> io::Result<Handles> {
    let write_wait = Duration::from_millis(u64::from(write_wait.max(1)));
    stream.set_nodelay(true)?;
    stream.set_read_timeout(Some(Duration::from_millis(READ_WAIT)))?;
    stream.set_write_timeout(Some(write_wait))?;
    Ok(Handles {
        reads: stream.try_clone()?,
        writes: stream,
    })
}
