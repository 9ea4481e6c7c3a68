//! Time: a server watches no leg, and puts no Pings (MS-RPCH 3.2.5).

use crate::state::ServerRole;
use rh_line::Leg;

impl ServerRole {
    ghost use Rattle.std.specs.Prelude.{◌≡◌};
    ghost use Rattle.rh_server.specs.Time as seen;

    pub(crate) fn silence_on(&self, _leg: Leg) -> Option<u32>
        ensures { result ≡ seen.silence self.now _leg }
    {
        None
    }

    pub(crate) fn ping_on(&self, _leg: Leg) -> Option<u64>
        ensures { result ≡ seen.ping_after self.now _leg }
    {
        None
    }
}
