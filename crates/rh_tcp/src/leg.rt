//! The two streams of a leg over TCP.

ghost use Rattle.std.specs.Prelude.{◌≡◌, ◌<◌, ◌≤◌, None, Ok, length, IfOk, OnOk, OnErr};
ghost use Rattle.std.specs.Io.{ReadsAtMost, WritesAtMost};
ghost use Rattle.std.specs.Io.KnownBytes.{WriteAppends};
ghost use Rattle.rh_io.specs.Counts.{Rose};
ghost use Rattle.rh_tcp.specs.Sent.{Sends};

use crate::way::READ_WAIT;
use rh_io::{Sink, SinkFailed, Source, SourceFailed};
use rh_net::{Ready, ShutSink, ShutSource};
use std::io::{self, ErrorKind, Read, Write};
use std::net::{Shutdown, TcpStream};
use std::time::Duration;

/// How many waits of `READ_WAIT` without a byte are the end of a source whose sink was shut.
const LAST_WAITS: u32 = 5;

/// The source of a leg over TCP. It waits for bytes, and tells none.
///
/// Once its sink was shut, five seconds without a byte are its end.
#[derive(Drop)]
pub struct TcpSource {
    // None where it was shut.
    stream: Option<TcpStream>,
    faults: u64,
    ends: u64,
}

impl TcpSource {
    pub(crate) fn over(stream: TcpStream) -> TcpSource
        ensures { (result.faults ≡ 0) × (result.ends ≡ 0) }
    {
        TcpSource {
            stream: Some(stream),
            faults: 0,
            ends: 0,
        }
    }

    /// How often it failed.
    pub(crate) fn faults(&self) -> u64
        ensures { result ≡ self.now.faults }
    {
        self.faults
    }

    /// How often it ended.
    pub(crate) fn ends(&self) -> u64
        ensures { result ≡ self.now.ends }
    {
        self.ends
    }
}

impl Source for TcpSource {
    ghost left = { λ _. None };

    ghost taken = { λ _. None };

    ghost faults = { λ s. s.faults };

    ghost ends = { λ s. s.ends };

    fn read(&mut self, room: &mut [u8]) -> Result<usize, SourceFailed> {
        if room.is_empty() {
            return Ok(0);
        }
        match read_from(&self.stream, room) {
            Ok(count) => {
                if count == 0 {
                    self.ends = self.ends.saturating_add(1);
                }
                Ok(count)
            }
            Err(_) => {
                self.faults = self.faults.saturating_add(1);
                Err(SourceFailed)
            }
        }
    }
}

/// Waits for a millisecond at least.
impl Ready for TcpSource {
    fn ready(&mut self, most: u32) -> bool {
        match &self.stream {
            Some(stream) => is_ready(stream, most),
            None => true,
        }
    }
}

// Whether a read would find something within so many milliseconds.
fn is_ready(stream: &TcpStream, most: u32) -> bool {
    let most = Duration::from_millis(u64::from(most.max(1)));
    if stream.set_read_timeout(Some(most)).is_err() {
        return true;
    }
    let found = stream.peek(&mut [0u8; 1]);
    let _ = stream.set_read_timeout(Some(Duration::from_millis(READ_WAIT)));
    match found {
        Ok(_) => true,
        Err(error) => !is_nothing_yet(error.kind()),
    }
}

impl ShutSource for TcpSource {
    fn shut(&mut self) {
        self.stream = None;
    }
}

// Waits for bytes; answers 0 at the end, and where there is no stream.
fn read_from(stream: &Option<TcpStream>, room: &mut [u8]) -> io::Result<usize>
    ensures { ReadsAtMost result room.new }
{
    let Some(stream) = stream else {
        return Ok(0);
    };
    let mut quiet = 0u32;
    for _ in 0..u64::MAX {
        match (&*stream).read(room) {
            Err(error) if error.kind() == ErrorKind::WouldBlock => {
                if is_half_shut(stream) {
                    quiet = quiet.saturating_add(1);
                    if LAST_WAITS <= quiet {
                        return Ok(0);
                    }
                }
            }
            Err(error) if error.kind() == ErrorKind::Interrupted => {}
            answer => return answer,
        }
    }
    Err(io::Error::from(ErrorKind::TimedOut))
}

/// A sink over a stream, which waits for room; it tells no bytes as a sink. The sink of a leg over
/// TCP is one over a socket.
///
/// Each error of the stream is a fault, and so is a write that took no byte of a piece; a write that
/// was interrupted is made again.
#[derive(Drop)]
pub struct StreamSink<W: Write> {
    // None where it was shut.
    stream: Option<W>,
    faults: u64,
}

/// The sink of a leg over TCP. A write that makes no progress for the net's wait fails.
pub type TcpSink = StreamSink<TcpStream>;

impl<W: Write> StreamSink<W> {
    /// A sink over a stream, whose count is 0.
    pub fn over(stream: W) -> StreamSink<W>
        ensures { (result.faults ≡ 0) × (result.stream ≡ Some stream) }
    {
        StreamSink {
            stream: Some(stream),
            faults: 0,
        }
    }

    /// How often it failed.
    pub fn faults(&self) -> u64
        ensures { ⟦<StreamSink<W> as Sink>⟧.faults self.now ≡ result }
    {
        self.faults
    }
}

impl<W: Write> Sink for StreamSink<W> {
    ghost written = { λ _. None };

    ghost faults = { λ s. s.faults };

    #[tactic(auto, using(crate::proofs::Sending::appends_nothing))]
    fn write(&mut self, piece: &[u8]) -> Result<usize, SinkFailed>
        ensures bound { IfOk result (λ n. n ≤ length piece.now) }
        ensures some { 0 < length piece.now → IfOk result (λ n. 0 < n) }
        ensures failed { OnErr result (Rose self.old.faults self.new.faults) }
        ensures no_failure { OnOk result (self.new.faults ≡ self.old.faults) }
        ensures no_piece { length piece.now ≡ 0 → result ≡ Ok 0 }
        ensures faults { self.old.faults ≤ self.new.faults }
        ensures sends { Sends W.contents self.old.stream self.new.stream result piece.now }
    {
        if piece.is_empty() {
            return Ok(0);
        }
        match write_to(&mut self.stream, piece) {
            Ok(count) if 0 < count => Ok(count),
            _ => {
                self.faults = self.faults.saturating_add(1);
                Err(SinkFailed)
            }
        }
    }
}

impl ShutSink for StreamSink<TcpStream> {
    fn shut(&mut self) {
        if let Some(stream) = self.stream.take() {
            mark_half_shut(&stream);
            let _ = stream.shutdown(Shutdown::Write);
        }
    }
}

// Waits for room; takes nothing where there is no stream.
fn write_to<W: Write>(stream: &mut Option<W>, piece: &[u8]) -> io::Result<usize>
    ensures bound { WritesAtMost result piece.now }
    ensures sends { Sends W.contents stream.old stream.new result piece.now }
{
    match stream {
        Some(stream) => write_again(stream, piece),
        None => Ok(0),
    }
}

// A write that is made again where it was interrupted.
#[tactic(auto, using(crate::proofs::Sending::kept_at_first, crate::proofs::Sending::kept_twice, crate::proofs::Sending::kept_then_appends))]
fn write_again<W: Write>(stream: &mut W, piece: &[u8]) -> io::Result<usize>
    ensures bound { WritesAtMost result piece.now }
    ensures sends { WriteAppends (W.contents stream.old) (W.contents stream.new) result piece.now }
{
    for _ in 0..u64::MAX {
        match stream.write(piece) {
            Err(error) if error.kind() == ErrorKind::Interrupted => {}
            answer => return answer,
        }
    }
    Err(io::Error::from(ErrorKind::TimedOut))
}

// The two handles of a leg share the options of their socket, and no memory. TCP_NODELAY is of no
// use once the writing half is shut; to take it away tells the source that it was.
fn mark_half_shut(stream: &TcpStream) {
    let _ = stream.set_nodelay(false);
}

fn is_half_shut(stream: &TcpStream) -> bool {
    matches!(stream.nodelay(), Ok(false))
}

// No byte came within the wait, or the wait was cut short.
fn is_nothing_yet(kind: ErrorKind) -> bool {
    matches!(kind, ErrorKind::WouldBlock | ErrorKind::Interrupted)
}
