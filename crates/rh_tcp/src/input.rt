//! Standard input that can tell whether a read would wait.

ghost use Rattle.std.specs.Prelude.{◌≡◌};

use mio::unix::SourceFd;
use mio::{Events, Interest, Poll, Token};
use rh_io::{ReaderSource, Source, SourceFailed};
use rh_net::Ready;
use std::alloc::Global;
use std::io::Read;
use std::net::Net;
use std::os::fd::{AsRawFd, RawFd};
use std::time::Duration;

/// Standard input, or another stream of the system's, which tells whether a read would wait where
/// it is a pipe or a terminal. A file is always ready.
#[derive(Drop)]
pub struct StdInput<S: Read> {
    source: ReaderSource<S>,
    // None where it is always ready.
    watch: Option<Watch>,
}

impl<S: Read + AsRawFd> StdInput<S> {
    /// Over a stream that reads nothing ahead. One that the system can't watch, as a file, is taken
    /// as always ready; so is each where the system has nothing left to watch it with.
    pub fn new<R: Net>(rt: &R, alloc: Global, inner: S) -> StdInput<S>
        ensures faults { ⟦<StdInput<S> as Source>⟧.faults result ≡ 0 }
        ensures ends { ⟦<StdInput<S> as Source>⟧.ends result ≡ 0 }
    {
        let watch = Watch::new(rt, alloc, inner.as_raw_fd());
        StdInput {
            source: ReaderSource::new(inner),
            watch,
        }
    }
}

impl<S: Read> Source for StdInput<S> {
    ghost left = { λ s. ⟦<ReaderSource<S> as Source>⟧.left s.source };

    ghost taken = { λ s. ⟦<ReaderSource<S> as Source>⟧.taken s.source };

    ghost faults = { λ s. ⟦<ReaderSource<S> as Source>⟧.faults s.source };

    ghost ends = { λ s. ⟦<ReaderSource<S> as Source>⟧.ends s.source };

    fn read(&mut self, room: &mut [u8]) -> Result<usize, SourceFailed> {
        self.source.read(room)
    }
}

impl<S: Read> Ready for StdInput<S> {
    fn ready(&mut self, most: u32) -> bool {
        match &mut self.watch {
            Some(watch) => watch.is_ready(most),
            None => true,
        }
    }
}

// What watches a descriptor of the system's.
#[derive(Drop)]
struct Watch {
    watched: RawFd,
    poll: Poll,
    events: Events<Global>,
}

impl Watch {
    // None where the system can't watch it.
    fn new<R: Net>(rt: &R, alloc: Global, watched: RawFd) -> Option<Watch> {
        let poll = Poll::new(rt).ok()?;
        let events = Events::with_capacity(alloc, 1).ok()?;
        poll.registry()
            .register(&mut SourceFd(&watched), Token(0), Interest::READABLE)
            .ok()?;
        Some(Watch {
            watched,
            poll,
            events,
        })
    }

    // Whether it is readable, at an end or at fault within so many milliseconds. Where the system
    // can't tell, a read will.
    fn is_ready(&mut self, most: u32) -> bool {
        // Events come at changes: to register it again asks for the state as it is.
        let registered = self
            .poll
            .registry()
            .reregister(&mut SourceFd(&self.watched), Token(0), Interest::READABLE);
        if registered.is_err() {
            return true;
        }
        let most = Duration::from_millis(u64::from(most));
        match self.poll.poll(&mut self.events, Some(most)) {
            Ok(()) => !self.events.is_empty(),
            Err(_) => true,
        }
    }
}
