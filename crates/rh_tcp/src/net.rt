//! The books of a net over TCP.

ghost use Rattle.std.specs.Prelude.{◌≡◌, ◌↔◌, None, IfOk, IsOk, IsSome, OnOk, OnErr};
ghost use Rattle.rh_net.specs.Calls.{AreLater, CountsFault};

use crate::leg::{TcpSink, TcpSource};
use crate::way::{TcpCame, TcpWay, listening};
use rh_net::{Address, Net, NetCounts, NetFailed, ShutSink, ShutSource};
use std::net::{self as sockets, TcpListener, TcpStream};

/// After how long a write that makes no progress fails, in milliseconds.
pub const WRITE_WAIT: u32 = 60_000;

/// A net over TCP. It tells no streams taken back.
///
/// A leg is given only where it came: where nobody connects, a way answers that nobody came.
#[derive(Drop)]
pub struct TcpNet<R: sockets::Net<Listener = TcpListener, Stream = TcpStream> + Copy> {
    rt: R,
    listener: Option<TcpListener>,
    write_wait: u32,
    counts: NetCounts,
}

impl<R: sockets::Net<Listener = TcpListener, Stream = TcpStream> + Copy> TcpNet<R> {
    /// A net of the system's sockets, which listens nowhere. A write on its legs fails once it made
    /// no progress for `WRITE_WAIT`.
    pub fn new(rt: R) -> TcpNet<R>
        ensures counts { result.counts
            ≡ record { faults = 0; given = 0; leg_faults = 0; leg_ends = 0 } }
        ensures waits { result.write_wait ≡ 60000 }
    {
        TcpNet::with_write_wait(rt, WRITE_WAIT)
    }

    /// The same net, with another wait of its writes, in milliseconds.
    pub fn with_write_wait(rt: R, write_wait: u32) -> TcpNet<R>
        ensures counts { result.counts
            ≡ record { faults = 0; given = 0; leg_faults = 0; leg_ends = 0 } }
        ensures waits { result.write_wait ≡ write_wait }
    {
        TcpNet {
            rt,
            listener: None,
            write_wait,
            counts: NetCounts::new(),
        }
    }

    /// The counts of this net.
    pub fn counts(&self) -> NetCounts
        ensures { ⟦<TcpNet<R> as Net>⟧.counts self.now ≡ result }
    {
        self.counts
    }

    /// The port listened at, where there is one: of use after `listen` at port 0, for which the
    /// system picks one.
    pub fn port(&self) -> Option<u16> {
        let listener = self.listener.as_ref()?;
        Some(listener.local_addr().ok()?.port())
    }
}

impl<R: sockets::Net<Listener = TcpListener, Stream = TcpStream> + Copy> Net for TcpNet<R> {
    type In = TcpSource;

    type Out = TcpSink;

    type Came = TcpCame;

    type Way = TcpWay<R>;

    ghost counts = { λ n. n.counts };

    ghost backs = { λ _. None };

    fn back_in(&mut self, source: TcpSource) {
        self.counts.count_source(source.faults(), source.ends());
        let mut source = source;
        source.shut();
    }

    fn back_out(&mut self, sink: TcpSink) {
        self.counts.count_sink(sink.faults());
        let mut sink = sink;
        sink.shut();
    }

    fn way(&mut self) -> Result<TcpWay<R>, NetFailed> {
        let Some(listener) = &self.listener else {
            return Ok(TcpWay::new(self.rt, None, self.write_wait));
        };
        match listener.try_clone() {
            Ok(listener) => Ok(TcpWay::new(self.rt, Some(listener), self.write_wait)),
            Err(_) => {
                self.counts.count_fault();
                Err(NetFailed)
            }
        }
    }

    fn gives(&mut self, came: TcpCame) -> Result<(TcpSource, TcpSink), NetFailed> {
        match came.leg {
            Ok(handles) => {
                self.counts.count_given();
                Ok((
                    TcpSource::over(handles.reads),
                    TcpSink::over(handles.writes),
                ))
            }
            Err(_) => {
                self.counts.count_fault();
                Err(NetFailed)
            }
        }
    }

    fn listen(&mut self, at: &Address) -> Result<(), NetFailed>
        ensures ok { OnOk result (self.new.counts ≡ self.old.counts) }
        ensures err { OnErr result (CountsFault self.old.counts self.new.counts) }
        ensures later { AreLater self.old.counts self.new.counts }
        ensures listens { IsOk result ↔ IsSome self.new.listener }
    {
        // The listener before it is closed first, so that its port is free again.
        self.listener = None;
        match listening(&self.rt, at) {
            Ok(listener) => {
                self.listener = Some(listener);
                Ok(())
            }
            Err(_) => {
                self.counts.count_fault();
                Err(NetFailed)
            }
        }
    }
}
