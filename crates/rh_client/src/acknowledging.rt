//! RPC PDUs that come, and acknowledgements (MS-RPCH 3.2.1.1, 3.2.1.5).

ghost use Rattle.std.specs.Prelude.{◌≡◌};
ghost use Rattle.rh_client.specs.Acknowledging.{is_switched_by, acked, ack_row};

use crate::channels::InChannel;
use crate::replacement::Replacement;
use crate::state::ClientRole;
use rh_line::{LineFault, Which};
use rh_rts::{Cookie, TO_CLIENT};
use rh_shell::Refused;
use rh_window::Ack;

impl Replacement {
    /// Whether OUT_R1/A7 was put, and the successor isn't the current channel yet.
    fn is_switched(&self) -> bool
        ensures { result ≡ is_switched_by self.now }
    {
        match self {
            Replacement::Out { stage, .. } => stage.is_switched(),
            Replacement::NoneUnderWay | Replacement::In { .. } => false,
        }
    }
}

impl InChannel {
    /// An acknowledgement of the channel.
    fn acknowledge(&mut self, received: u32, available: u32) -> Result<(), Refused>
        ensures row { result ≡ ack_row self.old received available }
        ensures new { self.new ≡ acked self.old received available }
    {
        match self.window.acked(received, available) {
            Ok(()) => Ok(()),
            Err(bad) => Err(Refused::OutOfRange {
                command: bad.command,
                value: bad.value,
            }),
        }
    }
}

impl ClientRole {
    ghost use Rattle.std.specs.Prelude.{◌≡◌, IfSome, Some};
    ghost use Rattle.rh_pdu.specs.Frames.{IsPdu};
    ghost use Rattle.rh_line.specs.Lines.{IsThere, due};
    ghost use Rattle.rh_client.specs.Acknowledging as seen;

    /// Whether PDUs may come on the successor's channel.
    fn is_switched(&self) -> bool
        ensures { result ≡ seen.is_switched self.now }
    {
        self.replacement.is_switched() && self.line.has_next()
    }

    /// The channel on which a PDU may come.
    fn pdu_channel(&self, number: u32) -> Option<Which>
        ensures channel { result ≡ seen.pdu_channel self.now number }
        ensures there { IfSome result (λ which. IsThere self.now.line which) }
    {
        if !self.is_open() {
            None
        } else if self.is_current(number) {
            Some(Which::Current)
        } else if self.is_switched() && self.is_out_successor(number) {
            Some(Which::Next)
        } else {
            None
        }
    }

    /// An RPC PDU on an OUT channel.
    pub(crate) fn on_pdu(&mut self, number: u32, pdu: &[u8]) -> Result<(), Refused>
        requires { IsPdu pdu.now }
        ensures { (self.new, result) ≡ seen.on_pdu self.old number pdu.now }
    {
        let Some(which) = self.pdu_channel(number) else {
            return Err(Refused::Unexpected);
        };
        match self.line.admit(which, pdu) {
            Ok(()) => Ok(()),
            Err(LineFault::Over) => Err(Refused::Unexpected),
            Err(LineFault::Window(exceeded)) => Err(Refused::Window(exceeded)),
        }
    }

    /// An acknowledgement of the IN channel of that cookie, where its leg is unfinished.
    fn ack_named(&mut self, received: u32, available: u32, of: Cookie) -> Result<(), Refused>
        ensures { (self.new, result) ≡ seen.ack_named self.old received available of }
    {
        if self.writing.is_named(of) {
            self.writing.acknowledge(received, available)
        } else if self.in_successor.is_named(of) {
            self.in_successor.acknowledge(received, available)
        } else if self.leaving.is_named(of) {
            self.leaving.acknowledge(received, available)
        } else {
            Ok(())
        }
    }

    /// An acknowledgement with a destination, which is to be the client.
    pub(crate) fn on_ack_to(
        &mut self,
        to: u32,
        received: u32,
        available: u32,
        of: Cookie,
    ) -> Result<(), Refused>
        ensures { (self.new, result) ≡ seen.on_ack_to self.old to received available of }
    {
        if !self.is_open() || to != TO_CLIENT {
            return Err(Refused::Unexpected);
        }
        self.ack_named(received, available, of)
    }

    /// Whether an acknowledgement may be due for a channel.
    fn may_ack(&self, which: Which) -> bool
        ensures { result ≡ seen.may_ack self.now which }
    {
        match which {
            Which::Current => !self.line.is_over(which) && !self.replacement.is_finished(),
            Which::Next => self.line.has_next() && !self.line.is_over(which),
        }
    }

    /// The acknowledgement that is due for a channel.
    pub(crate) fn ack_due(&self, which: Which) -> Option<Ack>
        ensures ack { result ≡ seen.ack_due self.now which }
        ensures there { IfSome result (λ ack. IsThere self.now.line which) }
        ensures due { IfSome result (λ ack. due self.now.line which ≡ Some ack) }
    {
        if self.may_ack(which) {
            self.line.due(which)
        } else {
            None
        }
    }

    /// The cookie of an OUT channel.
    pub(crate) fn cookie_of(&self, which: Which) -> Cookie
        ensures { result ≡ seen.cookie_of self.now which }
    {
        match which {
            Which::Current => self.current.cookie,
            Which::Next => self.out_successor.cookie,
        }
    }
}
