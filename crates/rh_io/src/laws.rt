//! What holds of sources and sinks in memory of which no call is to fail.

ghost use Rattle.std.specs.Prelude.{◌≡◌, ◌≤◌, Some, IfOk, length};
ghost use Rattle.rh_io.specs.Laws.{ReadFromMemory};

use crate::NoMemory;
use crate::fault::ReadWholeError;
use crate::memory::{MemSink, MemSource};
use crate::sink::Sink;
use crate::whole::{read_whole, write_whole};
use std::alloc::Global;

/// Reads bytes whole from memory: that never fails but for the limit and for want of memory.
pub fn read_from_memory(
    alloc: Global,
    bytes: Vec<u8>,
    limit: usize,
) -> Result<Vec<u8>, ReadWholeError>
    ensures { ReadFromMemory limit bytes.items result }
{
    let mut source = MemSource::new(bytes, Vec::new(alloc));
    read_whole(alloc, &mut source, limit)
}

/// Writes a piece whole to memory, where there is room: that never fails but for want of memory.
pub fn write_to_memory(alloc: Global, piece: &[u8], room: usize) -> Result<MemSink, NoMemory>
    requires { length piece.now ≤ room }
    ensures { IfOk result (λ s. ⟦<MemSink as Sink>⟧.written s ≡ Some piece.now) }
{
    let mut sink = MemSink::new(alloc, room, Vec::new(alloc))?;
    let Ok(()) = write_whole(&mut sink, piece) else {
        unreachable!()
    };
    Ok(sink)
}
