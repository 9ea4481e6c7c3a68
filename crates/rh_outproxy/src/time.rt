//! Time at an out proxy, in milliseconds (MS-RPCH 3.2, profile).

use crate::state::{Answer, OutProxyRole, Ping};
use rh_line::Leg;

impl OutProxyRole {
    ghost use Rattle.std.specs.Prelude.{◌≡◌};
    ghost use Rattle.rh_outproxy.specs.Time as seen;

    /// A Ping is due to the client where nothing was put for half of this time: behind the
    /// response, the own timeout.
    pub(crate) fn ping_time(&self, leg: Leg) -> Option<u64>
        ensures { result ≡ seen.ping_after self.now leg }
    {
        if self.is_co(leg) && matches!(self.answer, Answer::TimeoutDue | Answer::Put) {
            Some(u64::from(self.config.timeout))
        } else {
            None
        }
    }

    /// A Ping becomes due.
    pub(crate) fn ping_is_due(&mut self, _leg: Leg)
        ensures { self.new ≡ seen.ping self.old _leg }
    {
        self.ping = Ping::Due;
    }
}
