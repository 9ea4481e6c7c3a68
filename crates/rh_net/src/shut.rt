//! Streams that can be shut.

ghost use Rattle.std.specs.Prelude.{◌≡◌};
ghost use Rattle.std.specs.Io.KnownBytes.{Keeps};
ghost use Rattle.rh_io.specs.Bytes.{Stays};

use rh_io::{MemSink, Sink, Source, WriterSink};
use std::io::Write;

/// A source that can be shut.
pub trait ShutSource: Source {
    /// Ends the source: nothing more is read from it. No read follows.
    ///
    /// Changes neither count and no told byte.
    fn shut(&mut self)
        ensures bytes { Stays (Self.left self.old) (Self.left self.new)
            (Self.taken self.old) (Self.taken self.new) }
        ensures counts { (Self.faults self.new ≡ Self.faults self.old)
            × (Self.ends self.new ≡ Self.ends self.old) };
}

/// A sink that can be shut.
pub trait ShutSink: Sink {
    /// Ends the sink: its peer finds no byte behind those that were written. No write follows.
    ///
    /// Changes neither its count nor a told byte.
    fn shut(&mut self)
        ensures bytes { Keeps (Self.written self.old) (Self.written self.new) }
        ensures count { Self.faults self.new ≡ Self.faults self.old };
}

/// Its bytes are still told.
impl ShutSink for MemSink {
    fn shut(&mut self) {}
}

/// Each write was flushed, so nothing is left to do: what is behind the writer finds no byte behind
/// those that were written.
impl<W: Write> ShutSink for WriterSink<W> {
    fn shut(&mut self) {}
}
