//! A sink over any writer of std.

ghost use Rattle.std.specs.Prelude.{◌≡◌, ℕ, ◌+◌, ◌<◌, ◌≤◌, List, length, take, None, Ok, IsOk, IfOk, OnOk, OnErr, MatchResult};
ghost use Rattle.std.specs.Io.{WritesAtMost};
ghost use Rattle.std.specs.Io.KnownBytes.{Appends, Keeps};
ghost use Rattle.rh_io.specs.Bytes.{SendsFront};
ghost use Rattle.rh_io.specs.Counts.{Rose};

use crate::sink::{Sink, SinkFailed};
use std::io::{self, Write};

/// A sink over a writer. It tells no bytes as a sink; what its writer holds after a write is said
/// there.
///
/// Each write is flushed, so that an error that a buffer would hide shows at its own call. Each
/// error of the writer is a fault, an interrupted write too, and so is a write that took no byte of
/// a piece. Bytes that were taken before their flush failed may still have gone out.
#[derive(Drop)]
pub struct WriterSink<W: Write> {
    inner: W,
    faults: u64,
}

impl<W: Write> WriterSink<W> {
    /// A sink over `inner`, with its count at 0.
    pub fn new(inner: W) -> WriterSink<W>
        ensures faults { ⟦<WriterSink<W> as Sink>⟧.faults result ≡ 0 }
        ensures inner { result.inner ≡ inner }
    {
        WriterSink { inner, faults: 0 }
    }
}

impl<W: Write> Sink for WriterSink<W> {
    ghost written = { λ _. None };

    ghost faults = { λ s. s.faults };

    fn write(&mut self, piece: &[u8]) -> Result<usize, SinkFailed>
        ensures bound { IfOk result (λ n. n ≤ length piece.now) }
        ensures some { 0 < length piece.now → IfOk result (λ n. 0 < n) }
        ensures failed { OnErr result (Rose self.old.faults self.new.faults) }
        ensures no_failure { OnOk result (self.new.faults ≡ self.old.faults) }
        ensures no_piece { length piece.now ≡ 0 → result ≡ Ok 0 }
        ensures faults { self.old.faults ≤ self.new.faults }
        ensures front { SendsFront (W.contents self.old.inner) (W.contents self.new.inner)
            result piece.now }
    {
        if piece.is_empty() {
            return Ok(0);
        }
        match write_through(&mut self.inner, piece) {
            Ok(count) if 0 < count => Ok(count),
            _ => {
                self.faults = self.faults.saturating_add(1);
                Err(SinkFailed)
            }
        }
    }
}

// Writes the front of the piece, and flushes it.
fn write_through<W: Write>(writer: &mut W, piece: &[u8]) -> io::Result<usize>
    ensures bound { WritesAtMost result piece.now }
    ensures front { SendsFront (W.contents writer.old) (W.contents writer.new) result piece.now }
{
    let count = writer.write(piece)?;
    writer.flush()?;
    Ok(count)
}
