//! The packet that a frame is.

ghost use Rattle.std.specs.Prelude.{◌≡◌};
ghost use Rattle.rh_shell.specs.Readings.{packet_of};

use rh_rts::{RtsFault, view};
use rh_sig::{Named, Pipe, SigFault, read_named};

/// Why a frame is no named packet, in the order in which it is tried.
#[derive(Clone, Copy, Debug)]
pub enum PacketFault {
    /// It is no packet.
    Rts(RtsFault),
    /// It has no name on the pipe, or a value out of its range.
    Sig(SigFault),
}

/// The named packet that a frame is on this pipe. Where there is no pipe, no packet has a name.
#[tactic(auto, unfolding(crate::specs::Readings::packet_of))]
pub(crate) fn read_packet(frame: &[u8], pipe: Option<Pipe>) -> Result<Named, PacketFault>
    ensures { result ≡ packet_of frame.now pipe }
{
    let Some(pipe) = pipe else {
        return Err(PacketFault::Sig(SigFault::Unknown));
    };
    let packet = match view(frame) {
        Ok(packet) => packet,
        Err(fault) => return Err(PacketFault::Rts(fault)),
    };
    match read_named(&packet, pipe) {
        Ok(named) => Ok(named),
        Err(fault) => Err(PacketFault::Sig(fault)),
    }
}
