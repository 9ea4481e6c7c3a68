//! Writes what was gathered in pieces.

ghost use Rattle.std.specs.Prelude.{◌≡◌, ◌<◌, ◌≤◌, IsOk, OnOk, OnErr, Err, [], string_bytes, length};
ghost use Rattle.rh_io.specs.Counts.{Rose};
ghost use Rattle.rh_word.specs.Outputs.{out, Gathers, Stops};

use rh_io::{Sink, SinkFailed, write_whole};
use std::alloc::AllocError;

/// How many bytes are gathered before they are written.
pub const PIECE: usize = 65_536;

/// Why an output is not whole.
#[derive(Clone, Copy, Debug, PartialEq, Eq)]
pub enum Unfinished {
    /// The output failed.
    WriteFault,
    /// There was no memory.
    NoMemory,
}

impl From<AllocError> for Unfinished {
    ghost use Rattle.std.specs.Prelude.{◌≡◌};
    ghost use Rattle.rh_word.specs.declared.output.Unfinished.TheVariants.{NoMemory};

    ghost from_gives = { λ _ fault. fault ≡ NoMemory };

    fn from(_: AllocError) -> Unfinished {
        Unfinished::NoMemory
    }
}

/// Writes what was gathered where that is at least so many bytes, and keeps its room for more.
/// Fewer stay, and nothing is written. So fewer wait behind it.
pub fn pass_on<W: Sink>(
    gathered: &mut String,
    least: usize,
    output: &mut W,
) -> Result<(), Unfinished>
    ensures ok { OnOk result (Gathers (string_bytes gathered.old) (string_bytes gathered.new)
        (out W.written W.takes output.old) (out W.written W.takes output.new)) }
    ensures all { OnOk result (least ≡ 0 → string_bytes gathered.new ≡ []) }
    ensures below { 0 < least → OnOk result (length (string_bytes gathered.new) < least) }
    ensures waits { length (string_bytes gathered.old) < least
        → (string_bytes gathered.new ≡ string_bytes gathered.old) × (output.new ≡ output.old) }
    ensures err { OnErr result (Stops (string_bytes gathered.old)
        (W.written output.old) (W.written output.new)) }
    ensures fault { OnErr result (result ≡ Err Unfinished.WriteFault) }
    ensures failed { OnErr result (Rose (W.faults output.old) (W.faults output.new)) }
    ensures no_failure { OnOk result (W.faults output.new ≡ W.faults output.old) }
    ensures takes { length (string_bytes gathered.old) ≤ W.takes output.old → IsOk result }
{
    if gathered.len() >= least {
        match write_whole(output, gathered.as_bytes()) {
            Ok(()) => gathered.clear(),
            Err(SinkFailed) => return Err(Unfinished::WriteFault),
        }
    }
    Ok(())
}
