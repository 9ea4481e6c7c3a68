//! Reading a source to its end, and writing a piece whole.

ghost use Rattle.std.specs.Prelude.{◌≡◌, ◌≢◌, ℕ, ◌+◌, ◌≤◌, List, length, take, OnOk, OnErr, Ok, Err};
ghost use Rattle.std.specs.Io.KnownBytes.{IsAtEnd, Appends};
ghost use Rattle.rh_io.specs.Bytes.{Moves};
ghost use Rattle.rh_io.specs.Counts.{Rose};
ghost use Rattle.rh_io.specs.Whole.{Answers, FaultsAfter, EndsAfter};

use crate::fault::ReadWholeError;
use crate::sink::{Sink, SinkFailed};
use crate::source::{Source, SourceFailed};
use std::alloc::Global;

/// The room of one read of `read_whole`, in bytes (64 KiB).
pub const READ_ROOM: usize = 65536;

/// Reads a source to its end, at most `limit` bytes, and answers them.
///
/// Fails with `ReadFault` where a read failed, with `TooLong` where one byte more than `limit`
/// came, and with `NoMemory` where there was none for the bytes. What came before a failure is
/// lost; more than `limit + 1` bytes are never read.
pub fn read_whole<S: Source>(
    alloc: Global,
    source: &mut S,
    limit: usize,
) -> Result<Vec<u8>, ReadWholeError>
    ensures came { (bytes : List ℕ)
        × Moves (S.left source.old) (S.left source.new)
        (S.taken source.old) (S.taken source.new) bytes
        × Answers limit bytes result }
    ensures ok { OnOk result
        (Rose (S.ends source.old) (S.ends source.new) × IsAtEnd (S.left source.new)) }
    ensures fault { result ≡ Err ReadWholeError.ReadFault
        → Rose (S.faults source.old) (S.faults source.new) }
    ensures faults_after { FaultsAfter result (S.faults source.old) (S.faults source.new) }
    ensures ends_after { EndsAfter result (S.ends source.old) (S.ends source.new) }
    ensures unfailing { S.unfailing source.old
        → (result ≢ Err ReadWholeError.ReadFault) × S.unfailing source.new }
    ensures faults { S.faults source.old ≤ S.faults source.new }
    ensures ends { S.ends source.old ≤ S.ends source.new }
{
    let mut all = Vec::new(alloc);
    let mut room = [0u8; READ_ROOM];
    'reads: while all.len() <= limit {
        let most = READ_ROOM.min((limit - all.len()).saturating_add(1));
        match source.read(&mut room[..most]) {
            Err(SourceFailed) => return Err(ReadWholeError::ReadFault),
            Ok(0) => return Ok(all),
            Ok(count) => {
                let Ok(()) = all.extend_from_slice(&room[..count]) else {
                    return Err(ReadWholeError::NoMemory);
                };
            }
        }
    }
    Err(ReadWholeError::TooLong)
}

/// Writes a piece whole, by as many writes as it takes: each byte once and in order.
///
/// Fails at the first write that fails; a front of the piece has gone then. Makes no call where the
/// piece is empty.
pub fn write_whole<W: Sink>(sink: &mut W, piece: &[u8]) -> Result<(), SinkFailed>
    ensures ok { OnOk result (Appends (W.written sink.old) (W.written sink.new) piece.now) }
    ensures err { OnErr result ((k : ℕ) × (k ≤ length piece.now)
        × Appends (W.written sink.old) (W.written sink.new) (take k piece.now)) }
    ensures failed { OnErr result (Rose (W.faults sink.old) (W.faults sink.new)) }
    ensures no_failure { OnOk result (W.faults sink.new ≡ W.faults sink.old) }
    ensures takes { length piece.now ≤ W.takes sink.old
        → (result ≡ Ok tt) × (W.takes sink.old ≤ W.takes sink.new + length piece.now) }
    ensures empty { length piece.now ≡ 0 → (result ≡ Ok tt) × (sink.new ≡ sink.old) }
    ensures faults { W.faults sink.old ≤ W.faults sink.new }
{
    let mut rest = piece;
    'writes: while !rest.is_empty() {
        let count = sink.write(rest)?;
        let (_, behind) = rest.split_at(count);
        rest = behind;
    }
    Ok(())
}
