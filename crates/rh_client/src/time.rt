//! Idle legs and Pings, in milliseconds (MS-RPCH 3.2.2.6).

use crate::state::ClientRole;
use rh_line::LegKind;

impl ClientRole {
    ghost use Rattle.std.specs.Prelude.{◌≡◌};
    ghost use Rattle.rh_client.specs.Time as seen;

    pub(crate) fn silence_by(&self, number: u32, kind: LegKind) -> Option<u32>
        ensures { result ≡ seen.silence_by self.now number kind }
    {
        match kind {
            LegKind::ClientOut if self.is_current(number) => self.current.timeout,
            LegKind::ClientOut if self.is_out_successor(number) => self.out_successor.timeout,
            _ => None,
        }
    }

    pub(crate) fn ping_after_by(&self, number: u32, kind: LegKind) -> Option<u64>
        ensures { result ≡ seen.ping_after_by self.now number kind }
    {
        match kind {
            LegKind::ClientIn if self.is_writing(number) => {
                Some(u64::from(self.writing.timeout))
            }
            LegKind::ClientIn if self.is_in_successor(number) => {
                Some(u64::from(self.in_successor.timeout))
            }
            _ => None,
        }
    }

    pub(crate) fn ping_by(&mut self, number: u32, kind: LegKind)
        ensures { self.new ≡ seen.ping_by self.old number kind }
    {
        match kind {
            LegKind::ClientIn if self.is_writing(number) => self.writing.is_ping_due = true,
            LegKind::ClientIn if self.is_in_successor(number) => {
                self.in_successor.is_ping_due = true;
            }
            _ => {}
        }
    }
}
