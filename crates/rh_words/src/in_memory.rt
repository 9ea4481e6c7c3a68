//! Runs in memory of which no call is to fail.

ghost use Rattle.std.specs.Prelude.{◌≡◌, IfOk};
ghost use Rattle.rh_words.specs.declared.form.Form.{Form};
ghost use Rattle.rh_words.specs.Forms.{IsForm};
ghost use Rattle.rh_words.specs.Memory.{IsRoomFor, RanInMemory};

use crate::claims::Plain;
use crate::help::HELP;
use crate::running::{VERSION, run};
use crate::status::Status;
use rh_io::{MemSink, MemSource, NoMemory, Sink};
use std::alloc::Global;

/// Does what the words say, from bytes in memory to at most `room` bytes in memory.
///
/// Where there is room for the whole output, neither the input nor the output fails: of a text of
/// the grammar that is no longer than the program reads the whole output is written, but for want
/// of memory. There nothing is written, or a front of the whole output.
pub fn run_in_memory(
    alloc: Global,
    words: &[String],
    bytes: Vec<u8>,
    room: usize,
) -> Result<(Status, MemSink), NoMemory>
    ensures usage { IfOk result (λ ran. ((form : Form) → ¬ IsForm form words.now)
        → ran.0 ≡ Status.Usage) }
    ensures ran { IfOk result (λ ran. (form : Form) → IsForm form words.now
        → IsRoomFor HELP.now VERSION.now form bytes.items room
        → RanInMemory HELP.now VERSION.now form bytes.items ran.0
        (⟦<MemSink as Sink>⟧.written ran.1)) }
{
    let mut input = MemSource::new(bytes, Vec::new(alloc));
    let mut output = MemSink::new(alloc, room, Vec::new(alloc))?;
    let status = run::<Plain, MemSource, MemSink>(alloc, words, &mut input, &mut output);
    Ok((status, output))
}
