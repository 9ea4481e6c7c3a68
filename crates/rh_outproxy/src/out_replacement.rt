//! The replacement of an OUT channel, at the proxy of the predecessor (profile).

use crate::rows::Row;
use crate::state::{Mark, OutProxyRole};
use rh_rts::TO_CLIENT;
use rh_shell::Refused;
use rh_sig::Named;

impl OutProxyRole {
    ghost use Rattle.std.specs.Prelude.{◌≡◌};
    ghost use Rattle.rh_outproxy.specs.OutReplacement as seen;

    /// OUT_R1/A1 is forwarded as A2.
    pub(crate) fn on_out_r1_a1(&mut self, to: u32) -> Row
        ensures { (self.new, result) ≡ seen.on_out_r1_a1 self.old to }
    {
        self.pass_on(to, Named::OutR1A2(TO_CLIENT))
    }

    /// OUT_R1/A5 is forwarded as A6.
    pub(crate) fn on_out_r1_a5(&mut self, to: u32, version: u32, timeout: u32) -> Row
        ensures { (self.new, result) ≡ seen.on_out_r1_a5 self.old to version timeout }
    {
        self.pass_on(to, Named::OutR1A6(TO_CLIENT, version, timeout))
    }

    /// OUT_R1/A9 comes once: A10 is a mark behind the channel's PDUs and END.
    pub(crate) fn on_out_r1_a9(&mut self) -> Row
        ensures { (self.new, result) ≡ seen.on_out_r1_a9 self.old }
    {
        if !self.is_carrying() {
            return Err(Refused::Unexpected);
        }
        self.handover = Mark::Came;
        Ok(())
    }
}
