//! The replacement of an IN channel (profile).

use crate::channels::{InChannel, LAST_NUMBER};
use crate::replacement::{InStage, Replacement};
use crate::state::ClientRole;
use crate::successors::{ci, co};
use rh_rts::TO_CLIENT;
use rh_shell::{RecycleRefused, Refused};
use std::mem;

impl ClientRole {
    ghost use Rattle.std.specs.Prelude.{◌≡◌};
    ghost use Rattle.rh_client.specs.InReplacement as seen;

    /// The writing channel is to be replaced.
    pub(crate) fn want_successor(&mut self) -> Result<(), RecycleRefused>
        ensures { (self.new, result) ≡ seen.recycle self.old }
    {
        match self.replacement {
            Replacement::NoneUnderWay => {
                if self.writing.number == LAST_NUMBER {
                    return Err(RecycleRefused::Last);
                }
                self.begin_in(false);
                Ok(())
            }
            Replacement::In { .. } => Err(RecycleRefused::Busy {
                under_way: ci(self.in_successor.number),
            }),
            Replacement::Out { .. } => Err(RecycleRefused::Busy {
                under_way: co(self.out_successor.number),
            }),
        }
    }

    /// Whether the meter of the writing channel wants a successor.
    fn wants_successor(&self) -> bool
        ensures { result ≡ seen.wants_successor self.now }
    {
        self.is_open() && self.writing.meter.wanted() && self.writing.number < LAST_NUMBER
    }

    /// The replacement that the meter wants begins, or waits.
    pub(crate) fn wish(&mut self)
        ensures { self.new ≡ seen.wished self.old }
    {
        if !self.wants_successor() {
            return;
        }
        match self.replacement {
            Replacement::NoneUnderWay => self.begin_in(false),
            Replacement::In { .. } => {}
            Replacement::Out { stage, waits } => {
                self.replacement = Replacement::Out {
                    stage,
                    waits: waits.with_in(),
                };
            }
        }
    }

    /// The replacement is answered, with the successor's window, in bytes, and timeout, in
    /// milliseconds.
    fn answer(&mut self, window: u32, timeout: u32) -> Result<(), Refused>
        ensures { (self.new, result) ≡ seen.answered self.old window timeout }
    {
        match self.replacement {
            Replacement::In {
                stage: InStage::Asked,
                out_waits,
            } => {
                if !self.in_successor.opening.is_put() {
                    return Err(Refused::Unexpected);
                }
                self.in_successor.tell(window, timeout);
                self.replacement = Replacement::In {
                    stage: InStage::Answered,
                    out_waits,
                };
                Ok(())
            }
            _ => Err(Refused::Unexpected),
        }
    }

    /// IN_R1/A4.
    pub(crate) fn on_in_r1_a4(&mut self, to: u32, window: u32, timeout: u32) -> Result<(), Refused>
        ensures { (self.new, result) ≡ seen.on_in_r1_a4 self.old to window timeout }
    {
        if to != TO_CLIENT {
            return Err(Refused::Unexpected);
        }
        self.answer(window, timeout)
    }

    /// IN_R2/A4.
    pub(crate) fn on_in_r2_a4(&mut self, to: u32) -> Result<(), Refused>
        ensures { (self.new, result) ≡ seen.on_in_r2_a4 self.old to }
    {
        if to != TO_CLIENT {
            return Err(Refused::Unexpected);
        }
        self.answer(self.writing.told, self.writing.timeout)
    }

    /// IN_R1/A5 was put: the successor is the writing channel.
    pub(crate) fn hand_over(&mut self, out_waits: bool)
        ensures { self.new ≡ seen.handed_over self.old out_waits }
    {
        mem::swap(&mut self.leaving, &mut self.writing);
        mem::swap(&mut self.writing, &mut self.in_successor);
        self.in_successor = InChannel::unopened(0, self.config.lifetime);
        self.after_in(out_waits);
    }
}
