//! What is forwarded of the replacement of an IN channel (profile).

use crate::rows::Row;
use crate::state::OutProxyRole;
use rh_rts::TO_CLIENT;
use rh_sig::Named;

impl OutProxyRole {
    ghost use Rattle.std.specs.Prelude.{◌≡◌};
    ghost use Rattle.rh_outproxy.specs.InReplacement as seen;

    /// IN_R1/A3 is forwarded as A4.
    pub(crate) fn on_in_r1_a3(&mut self, to: u32, version: u32, size: u32, timeout: u32) -> Row
        ensures { (self.new, result) ≡ seen.on_in_r1_a3 self.old to version size timeout }
    {
        self.pass_on(to, Named::InR1A4(TO_CLIENT, version, size, timeout))
    }

    /// IN_R2/A3 is forwarded as A4.
    pub(crate) fn on_in_r2_a3(&mut self, to: u32) -> Row
        ensures { (self.new, result) ≡ seen.on_in_r2_a3 self.old to }
    {
        self.pass_on(to, Named::InR2A4(TO_CLIENT))
    }
}
