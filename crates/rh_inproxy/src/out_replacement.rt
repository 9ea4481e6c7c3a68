//! Outbound replacement: an in proxy passes on that the client has the successor (profile).

use crate::row::Row;
use crate::state::InProxyRole;
use rh_line::Which;
use rh_rts::{Cookie, TO_SERVER};
use rh_shell::Refused;
use rh_sig::Named;

impl InProxyRole {
    ghost use Rattle.std.specs.Prelude.{◌≡◌};
    ghost use Rattle.rh_inproxy.specs.OutReplacement as seen;

    pub(crate) fn on_out_r1_a7(&mut self, which: Which, to: u32, successor: Cookie) -> Row
        ensures { (self.new, result) ≡ seen.on_out_r1_a7 self.old which to successor }
    {
        if self.has_a5(which) || to != TO_SERVER {
            return Err(Refused::Unexpected);
        }
        self.forward(Named::OutR1A8(TO_SERVER, successor))
    }
}
