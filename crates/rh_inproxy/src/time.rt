//! Idle times and keepalives, in milliseconds.

use crate::opening::kept_for;
use crate::row::Row;
use crate::state::{InProxyRole, is_client_leg};
use rh_line::{Leg, Which};
use rh_shell::{Begun, Refused};
use rh_sig::Named;

impl InProxyRole {
    ghost use Rattle.std.specs.Prelude.{◌≡◌, []};
    ghost use Rattle.rh_shell.specs.Rules.{put_into};
    ghost use Rattle.rh_inproxy.specs.Answers.{is_some};
    ghost use Rattle.rh_inproxy.specs.Time as seen;

    pub(crate) fn on_keep_alive(&mut self, which: Which, keepalive: u32) -> Row
        ensures { (self.new, result) ≡ seen.on_keep_alive self.old which keepalive }
    {
        if self.has_a5(which) {
            return Err(Refused::Unexpected);
        }
        self.keepalive = kept_for(keepalive);
        Ok(())
    }

    /// How long a ci leg may be silent: until IN_R1/A5 came there it is watched.
    pub(crate) fn silence_of(&self, leg: Leg) -> Option<u32>
        ensures { result ≡ seen.silence self.now leg }
    {
        if !is_client_leg(leg) {
            return None;
        }
        match self.channel_of(leg.number) {
            Some(which) if self.has_a5(which) => None,
            _ => Some(self.config.timeout),
        }
    }

    /// Twice the keepalive, on is: nothing is put for half of this before a Ping is due.
    pub(crate) fn ping_time(&self, leg: Leg) -> Option<u64>
        ensures { result ≡ seen.ping_after self.now leg }
    {
        if self.is_server_leg(leg) {
            Some(2 * u64::from(self.keepalive))
        } else {
            None
        }
    }

    /// A Ping becomes due.
    pub(crate) fn owe_ping(&mut self, leg: Leg)
        ensures { self.new ≡ seen.ping self.old leg }
    {
        if self.is_server_leg(leg) {
            self.ping_due = true;
        }
    }

    pub(crate) fn put_ping(&mut self, begun: &mut Begun) -> bool
        requires { begun.old ≡ [] }
        ensures put { (self.new, begun.new) ≡ put_into self.old (seen.put_ping self.old) }
        ensures told { result ≡ is_some (seen.put_ping self.old) }
    {
        if !self.ping_due {
            return false;
        }
        self.ping_due = false;
        begun.begin_packet(&Named::Ping);
        true
    }
}
