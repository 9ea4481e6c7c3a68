//! Reads a packet from its bytes (MS-RPCH 2.2.3.6).

ghost use Rattle.std.specs.Prelude.{◌≡◌, IfOk, Ok, Err};
ghost use Rattle.rh_rts.specs.declared.fault.RtsFault.{RtsFault};
ghost use Rattle.rh_rts.specs.Packets.{Parts, IsPacket, packet_bytes};
ghost use Rattle.rh_rts.specs.Refusals.{FirstFault};
ghost use Rattle.rh_rts.specs.Judging.{Decoded, IsReadBy};
ghost use Rattle.rh_rts.specs.Reading.{read_packet};

use crate::command::Command;
use crate::fault::DecodeFault;
use crate::judging::view;
use crate::packet::Packet;
use crate::views::Commands;
use std::alloc::{AllocError, Global};

/// The commands, each with memory of its own.
fn all_owned(alloc: Global, commands: Commands<'_>) -> Result<Vec<Command>, AllocError>
    ensures { IfOk result (λ all. all.items ≡ commands.entry) }
{
    let mut all = Vec::new(alloc);
    let mut left = commands;
    while let Some(command) = left.next() {
        all.push(command.owned(alloc)?)?;
    }
    Ok(all)
}

/// The packet whose spelling the bytes are; else the first part that is wrong.
///
/// It takes memory for the list of commands, and for the bytes of each `Padding`.
pub fn decode(alloc: Global, bytes: &[u8]) -> Result<Packet, DecodeFault>
    ensures reads { Decoded bytes.now result }
    ensures computed { IsReadBy (read_packet bytes.now) result }
    ensures packet { (p : Parts) → IsPacket p → bytes.now ≡ packet_bytes p
        → IsReadBy (Ok p) result }
    ensures fault { (wrong : RtsFault) → FirstFault bytes.now wrong → IsReadBy (Err wrong) result }
{
    read(alloc, bytes)
}

/// Reads the packet, from which the laws of `decode` follow.
fn read(alloc: Global, bytes: &[u8]) -> Result<Packet, DecodeFault>
    ensures { Decoded bytes.now result }
{
    let seen = match view(bytes) {
        Ok(seen) => seen,
        Err(fault) => {
            return Err(DecodeFault::Rts {
                place: fault.place,
                kind: fault.kind,
            });
        }
    };
    let commands = all_owned(alloc, seen.commands())?;
    Ok(Packet::of(seen.flags(), bytes.len() as u16, commands))
}
