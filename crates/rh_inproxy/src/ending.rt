//! Clean ends and breaks (profile).

use crate::row::Row;
use crate::state::{Handover, InProxyRole, Joining, Opening, Successor, Work, is_client_leg};
use rh_line::{Leg, Which};
use rh_shell::{Begun, Refused};
use rh_sig::Named;

impl InProxyRole {
    ghost use Rattle.std.specs.Prelude.{◌≡◌, []};
    ghost use Rattle.rh_line.specs.Lines.{IsThere};
    ghost use Rattle.rh_shell.specs.Rules.{put_into};
    ghost use Rattle.rh_inproxy.specs.Answers.{is_some};
    ghost use Rattle.rh_inproxy.specs.Ending as seen;

    // ---- END

    /// Whether an RPC PDU came on a ci leg behind that of the channel.
    fn has_later(&self, which: Which) -> bool
        ensures { result ≡ seen.has_later self.now which }
    {
        match which {
            Which::Current => self.line.has_next() && !self.line.is_empty(Which::Next),
            Which::Next => false,
        }
    }

    pub(crate) fn on_end_a1(&mut self, which: Which) -> Row
        requires { IsThere self.old.line which }
        ensures { (self.new, result) ≡ seen.on_end_a1 self.old which }
    {
        if self.has_a5(which) || self.line.is_over(which) || self.has_later(which) {
            return Err(Refused::Unexpected);
        }
        self.line.end(which);
        Ok(())
    }

    /// Whether END/A2 is due: END came on the current channel and no PDU is left there. It is put
    /// once.
    fn is_end_due(&self) -> bool
        ensures { result ≡ seen.is_end_due self.now }
    {
        self.line.is_over(Which::Current) && !self.end_put && self.line.is_empty(Which::Current)
    }

    /// Puts END/A2 where it is due.
    pub(crate) fn put_end(&mut self, begun: &mut Begun) -> bool
        requires { begun.old ≡ [] }
        ensures put { (self.new, begun.new) ≡ put_into self.old (seen.put_end self.old) }
        ensures told { result ≡ is_some (seen.put_end self.old) }
    {
        if !self.is_end_due() {
            return false;
        }
        self.end_put = true;
        begun.begin_packet(&Named::EndA2);
        true
    }

    // ---- legs that are done with

    /// Whether the channel of the ci leg is finished.
    pub(crate) fn is_done_with(&self, leg: Leg) -> bool
        ensures { result ≡ seen.is_done self.now leg }
    {
        is_client_leg(leg)
            && (leg.number < self.current.number
                || (leg.number == self.current.number
                    && matches!(self.successor, Successor::Joined(_, Joining::Follows))))
    }

    // ---- a leg is lost

    /// Whether the proxy goes on where the leg ends or breaks.
    pub(crate) fn goes_on_without(&self, leg: Leg) -> bool
        ensures { result ≡ seen.only_marks self.now leg }
    {
        if !is_client_leg(leg) {
            return false;
        }
        match self.channel_of(leg.number) {
            None => false,
            Some(which) => self.line.is_over(which) || self.has_a5(which),
        }
    }

    /// Whether nothing is left to put on is.
    fn is_drained(&self) -> bool
        ensures { result ≡ seen.is_drained self.now }
    {
        self.end_put
            && self.line.is_empty(Which::Current)
            && matches!(self.opening, Opening::Announced(_))
            && !matches!(
                self.successor,
                Successor::Joined(_, Joining::TellsServer { .. })
            )
            && self.waiting.is_empty()
            && !self.ping_due
    }

    /// Whether END came on the newest ci leg.
    fn newest_ended(&self) -> bool
        ensures { result ≡ seen.newest_ended self.now self.now.successor }
    {
        match self.successor {
            Successor::Absent => self.line.is_over(Which::Current),
            Successor::Up(_) => false,
            Successor::Joined(..) => self.line.is_over(Which::Next),
        }
    }

    /// Whether the newest ci leg ended behind END/A1, without IN_R1/A5, and nothing is left to put.
    fn is_over(&self) -> bool
        ensures { result ≡ seen.is_over self.now }
    {
        self.newest_lost
            && self.newest_ended()
            && matches!(self.handover, Handover::Before)
            && self.is_drained()
    }

    /// The work is done where it is over.
    pub(crate) fn settle(&mut self)
        ensures { self.new ≡ seen.settled self.old }
    {
        if self.is_over() {
            self.work = Work::Done;
        }
    }

    /// Whether this is the newest ci leg.
    fn is_newest(&self, leg: Leg) -> bool
        ensures { result ≡ seen.is_newest self.now leg }
    {
        is_client_leg(leg) && leg.number == self.newest()
    }

    /// The leg ended or broke, and the proxy goes on.
    pub(crate) fn lose(&mut self, leg: Leg)
        ensures { self.new ≡ seen.mark self.old leg }
    {
        if self.is_newest(leg) {
            self.newest_lost = true;
        }
        self.settle();
    }
}
