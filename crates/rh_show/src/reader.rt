//! Reads the lines of a text of packets: hex digits, two for each byte.

ghost use Rattle.std.specs.Prelude.{◌≡◌, vec_len};
ghost use Rattle.rh_show.specs.declared.reader.TheConstants.{MOST_BYTES};

use rh_text::digits::decode_hex;
use rh_text::{Bytes, Grammar, is_hex};
use std::alloc::{AllocError, Global};

/// The most bytes that a line spells (profile).
pub const MOST_BYTES: usize = 65_535;

/// The grammar of texts of packets: lines of hex that spell 1 to 65,535 bytes each.
#[derive(Clone, Copy, Debug)]
pub struct Packets;

impl Grammar for Packets {
    ghost use Rattle.rh_show.specs.Lines.{packets};
    ghost use Rattle.rh_show.specs.Readings.{one_packet_at, no_empty};

    type Place = ();

    type Line = Bytes;

    ghost rules = { packets };

    fn first_place() {}

    fn may_end(_: ()) -> bool {
        true
    }

    /// Decodes nothing, and takes no memory.
    fn judge_line(text: &[u8], _: ()) -> Option<()> {
        if is_hex(text, MOST_BYTES) {
            Some(())
        } else {
            None
        }
    }

    ghost one = { one_packet_at };

    ghost some = { no_empty };
}

/// Reads lines of hex, one after the other, with one room for the bytes of a line.
#[derive(Debug, Drop)]
pub struct LineReader {
    room: Vec<u8>,
    ghost size: { vec_len room ≡ MOST_BYTES },
}

impl LineReader {
    ghost use Rattle.std.specs.Prelude.{ℕ, List, MatchOption};
    ghost use Rattle.rh_show.specs.Lines.{IsPacketHex};

    /// A reader with room for the bytes of the longest line: 65,535 bytes.
    ///
    /// Fails where there is no memory for the room.
    pub fn new(alloc: Global) -> Result<LineReader, AllocError> {
        let room = vec![in alloc; 0; MOST_BYTES]?;
        Ok(LineReader { room })
    }

    /// The 1 to 65,535 bytes that the line spells, in hex digits of either case.
    ///
    /// The line is without the LF that ends it. `None` is answered exactly where it spells no such
    /// bytes. No memory is taken.
    pub fn read(&mut self, line: &[u8]) -> Option<&[u8]>
        ensures { MatchOption result ((bytes : List ℕ) → ¬ IsPacketHex line.now bytes)
            (λ bytes. IsPacketHex line.now bytes.now) }
    {
        let count = decode_hex(line, self.room.as_mut_slice())?;
        Some(&self.room[..count])
    }
}
