//! The clean end of a channel, and legs that are lost (profile).

use crate::rows::Row;
use crate::state::{Answer, ClientLeg, Mark, OutProxyRole, ServerLeg};
use rh_line::Leg;
use rh_shell::Refused;

impl OutProxyRole {
    ghost use Rattle.std.specs.Prelude.{◌≡◌};
    ghost use Rattle.rh_outproxy.specs.Ending as seen;

    /// END/B1 comes once: END/B2 is a mark behind the channel's PDUs.
    pub(crate) fn on_end_b1(&mut self) -> Row
        ensures { (self.new, result) ≡ seen.on_end_b1 self.old }
    {
        if !self.takes_pdus() {
            return Err(Refused::Unexpected);
        }
        self.end = Mark::Came;
        Ok(())
    }

    /// The last message of the leg was drawn to its end; behind an echo answer nothing is left.
    pub(crate) fn on_drawn(&mut self, leg: Leg)
        ensures { self.new ≡ seen.drawn self.old leg }
    {
        if self.is_co(leg) && self.answer == Answer::EchoPut {
            self.answer = Answer::EchoDrawn;
        }
    }

    /// Whether the proxy goes on without the leg.
    pub(crate) fn goes_on_without(&self, leg: Leg) -> bool
        ensures { result ≡ seen.only_marks self.now leg }
    {
        self.end.is_put() || (self.is_co(leg) && self.handover.is_put())
    }

    /// The leg is marked as ended.
    pub(crate) fn mark_leg(&mut self, leg: Leg)
        ensures { self.new ≡ seen.mark self.old leg }
    {
        if self.is_co(leg) {
            self.client = ClientLeg::Marked;
        } else {
            self.server = ServerLeg::Marked;
        }
    }

    /// The leg on which the client is told that the server cannot be connected.
    pub(crate) fn client_told(&self) -> Option<Leg>
        ensures { result ≡ seen.answers_on self.now }
    {
        if self.client == ClientLeg::Up {
            Some(self.co())
        } else {
            None
        }
    }
}
