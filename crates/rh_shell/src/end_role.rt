//! What an end's role does besides: it gives and takes PDUs, closes, and replaces its channel.

use crate::role::Role;
use rh_line::{Leg, LineTake};
use rh_pdu::PduFault;
use rh_pdu::header::GREATEST_FRAG;

/// Why an end's role does not accept a PDU. Nothing has changed then.
#[derive(Clone, Copy)]
pub enum GiveRefused {
    /// It was told that no PDU will be given any more.
    Closing,
    /// The bytes are no PDU.
    BadPdu(PduFault),
    /// The queue has no room: `held` bytes wait there, and the PDU has `len`.
    Full { held: usize, len: usize },
}

/// Why an end's role, which is open, does not replace its writing channel now. Nothing has changed
/// then.
#[derive(Clone, Copy)]
pub enum RecycleRefused {
    /// A replacement is under way or waits; the leg is the successor's of the one under way.
    Busy { under_way: Leg },
    /// The writing channel has the greatest number, 4,294,967,295.
    Last,
}

/// The role of an end by its acts. Each method is the act of the same name, and none takes memory.
pub trait EndRole: Role {
    ghost use Rattle.std.specs.Prelude.{◌≡◌};
    ghost use Rattle.rh_line.specs.Lines.{take_answer};
    ghost use Rattle.rh_line.specs.Queue.{put_first};
    ghost use Rattle.rh_shell.specs.Rules.{Acts};

    ghost acts: { Acts Self };

    /// A PDU is given to the other end, where it can be accepted.
    fn give(&mut self, pdu: &[u8]) -> Result<(), GiveRefused>
        ensures { (self.new, result) ≡ acts.give self.old pdu.now };

    /// The next PDU of the other end is taken from the line, where one is there, and put at the
    /// front of the room, which stays behind it.
    fn take(&mut self, room: &mut [u8; GREATEST_FRAG]) -> LineTake
        ensures answer { result ≡ take_answer (acts.line self.old) }
        ensures room { room.new ≡ put_first (acts.line self.old).current.pdus room.old }
        ensures new { self.new ≡ acts.take self.old };

    /// No PDU will be given any more.
    fn close(&mut self)
        ensures { self.new ≡ acts.close self.old };

    /// The channel on which the role writes is to be replaced. The role is open.
    fn recycle(&mut self) -> Result<(), RecycleRefused>
        ensures { (self.new, result) ≡ acts.recycle self.old };

    /// The numbers of the IN and the OUT channel in use: of the one on which the role writes, and
    /// of the one from which is taken.
    fn channels(&self) -> (u32, u32)
        ensures { result ≡ acts.channels self.now };
}
