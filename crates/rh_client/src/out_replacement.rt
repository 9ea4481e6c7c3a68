//! The replacement of an OUT channel (profile).

use crate::channels::{LAST_NUMBER, OutChannel};
use crate::replacement::{OutStage, Replacement, Waits};
use crate::state::ClientRole;
use rh_rts::TO_CLIENT;
use rh_shell::{Phase, Refused};
use std::mem;

impl ClientRole {
    ghost use Rattle.std.specs.Prelude.{◌≡◌};
    ghost use Rattle.rh_client.specs.OutReplacement as seen;

    /// The replacement that OUT_R1/A2 asks for begins, or waits.
    fn want_out_successor(&mut self, number: u32) -> Result<(), Refused>
        ensures { (self.new, result) ≡ seen.a2_by self.old number self.old.replacement }
    {
        match self.replacement {
            Replacement::NoneUnderWay => self.begin_out(Waits::Nothing),
            Replacement::In {
                stage,
                out_waits: false,
            } => {
                self.replacement = Replacement::In {
                    stage,
                    out_waits: true,
                };
            }
            Replacement::In { .. } => return Err(Refused::Unexpected),
            Replacement::Out { stage, waits } => {
                if !self.is_out_successor(number) || waits.has_out() {
                    return Err(Refused::Unexpected);
                }
                self.replacement = Replacement::Out {
                    stage,
                    waits: waits.with_out(),
                };
            }
        }
        Ok(())
    }

    /// OUT_R1/A2.
    pub(crate) fn on_out_r1_a2(&mut self, number: u32, to: u32) -> Result<(), Refused>
        ensures { (self.new, result) ≡ seen.on_out_r1_a2 self.old number to }
    {
        if !self.is_open() || to != TO_CLIENT || number == LAST_NUMBER {
            return Err(Refused::Unexpected);
        }
        self.want_out_successor(number)
    }

    /// OUT_R1/A6.
    pub(crate) fn on_out_r1_a6(&mut self, number: u32, to: u32, timeout: u32) -> Result<(), Refused>
        ensures { (self.new, result) ≡ seen.on_out_r1_a6 self.old number to timeout }
    {
        if to != TO_CLIENT || !self.is_current(number) {
            return Err(Refused::Unexpected);
        }
        match self.replacement {
            Replacement::Out {
                stage: OutStage::Asked,
                waits,
            } => {
                if !self.out_successor.opening.is_asked() {
                    return Err(Refused::Unexpected);
                }
                self.out_successor.timeout = Some(timeout);
                self.replacement = Replacement::Out {
                    stage: OutStage::Answered,
                    waits,
                };
                Ok(())
            }
            _ => Err(Refused::Unexpected),
        }
    }

    /// The successor is the current channel: the work is done, or what waits goes on.
    fn succeed(&mut self, waits: Waits)
        ensures { self.new ≡ seen.ended_or (seen.succeeded self.old) waits }
    {
        mem::swap(&mut self.current, &mut self.out_successor);
        self.out_successor = OutChannel::unopened(0);
        self.replacement = Replacement::NoneUnderWay;
        if self.is_over() {
            self.phase = Phase::Ended;
        } else {
            self.after_out(waits);
        }
    }

    /// The replacement is over, where the line has moved on.
    pub(crate) fn pass_on(&mut self)
        ensures { self.new ≡ seen.passed self.old }
    {
        if let Replacement::Out {
            stage: OutStage::Finished,
            waits,
        } = self.replacement
        {
            if !self.line.has_next() {
                self.succeed(waits);
            }
        }
    }

    /// OUT_R1/A10.
    pub(crate) fn on_out_r1_a10(&mut self, number: u32) -> Result<(), Refused>
        ensures { (self.new, result) ≡ seen.on_out_r1_a10 self.old number }
    {
        match self.replacement {
            Replacement::Out {
                stage: OutStage::Switched,
                waits,
            } => {
                if !self.line.has_next() || !self.is_current(number) {
                    return Err(Refused::Unexpected);
                }
                self.replacement = Replacement::Out {
                    stage: OutStage::Finished,
                    waits,
                };
                self.line.finish();
                self.pass_on();
                Ok(())
            }
            _ => Err(Refused::Unexpected),
        }
    }
}
