//! The end of a direction, of a leg, and of the work (profile).

ghost use Rattle.std.specs.Prelude.{◌≡◌};
ghost use Rattle.rh_server.specs.Ending.{are_lost, in_is_done, in_is_drawn, is_lost_leg};

use crate::in_replacement::is_waiting;
use crate::opening::{Row, is_first};
use crate::state::{Giving, InLeg, InStage, Leaving, ServerRole, Stage};
use rh_line::{Leg, LegKind, Which};
use rh_pdu::check;
use rh_shell::{Count, GiveRefused, Refused};

/// Whether there is no use for an is leg any more.
fn in_is_done(leg: Option<InLeg>) -> bool
    ensures { result ≡ in_is_done leg }
{
    match leg {
        None => true,
        Some(leg) => matches!(leg.leaving, Leaving::Left | Leaving::Lost),
    }
}

/// Whether IN_R1/B1 was put on an is leg, where that is still kept.
fn in_is_drawn(leg: Option<InLeg>) -> bool
    ensures { result ≡ in_is_drawn leg }
{
    match leg {
        None => true,
        Some(leg) => matches!(leg.leaving, Leaving::Left),
    }
}

/// Whether an is leg is lost.
fn is_lost_leg(leg: &InLeg) -> bool
    ensures { result ≡ is_lost_leg leg.now }
{
    matches!(leg.leaving, Leaving::Lost)
}

/// Whether each is leg that is kept is lost.
fn are_lost(legs: &[InLeg]) -> bool
    ensures { result ≡ are_lost legs.now }
{
    legs.iter().all(|leg| is_lost_leg(leg))
}

impl ServerRole {
    ghost use Rattle.std.specs.Prelude.{true, None, Some};
    ghost use Rattle.rh_pdu.specs.Frames.{IsPdu};
    ghost use Rattle.rh_line.specs.Lines.{IsThere};
    ghost use Rattle.rh_server.specs.Acknowledging.{channel_at};
    ghost use Rattle.rh_server.specs.States.{in_leg};
    ghost use Rattle.rh_server.specs.Ending as seen;

    /// A PDU is given to the client. Nothing has changed where that is refused.
    pub(crate) fn give_pdu(&mut self, pdu: &[u8]) -> Result<(), GiveRefused>
        ensures { (self.new, result) ≡ seen.give self.old pdu.now }
    {
        if self.is_closing() {
            return Err(GiveRefused::Closing);
        }
        if let Err(fault) = check(pdu) {
            return Err(GiveRefused::BadPdu(fault));
        }
        self.queues(pdu)
    }

    /// The PDU is queued, where there is room for it.
    fn queues(&mut self, pdu: &[u8]) -> Result<(), GiveRefused>
        requires { IsPdu pdu.now }
        ensures { (self.new, result) ≡ seen.give_by self.old pdu.now None }
    {
        let held = self.queue.held();
        if !self.queue.push(pdu) {
            return Err(GiveRefused::Full {
                held,
                len: pdu.len(),
            });
        }
        Ok(())
    }

    /// No PDU will be given any more.
    pub(crate) fn close_now(&mut self)
        ensures { self.new ≡ seen.close self.old }
    {
        self.giving = Giving::Closing;
    }

    pub(crate) fn on_end_a2(&mut self, number: u32, count: Count) -> Row
        ensures { (self.new, result) ≡ seen.on_end_a2 self.old number count }
    {
        if is_first(count) {
            return Err(Refused::Unexpected);
        }
        let Some(which) = self.channel_at(number) else {
            return self.end_a2_waiting(number);
        };
        self.ends(which)
    }

    /// END came on the channel.
    fn ends(&mut self, which: Which) -> Row
        requires { IsThere self.old.line which }
        ensures { (self.new, result) ≡ seen.end_a2_at self.old 0 (Some which) }
    {
        if self.line.is_over(which) {
            return Err(Refused::Unexpected);
        }
        self.line.end(which);
        Ok(())
    }

    /// END came on a leg whose channel waits.
    fn end_a2_waiting(&mut self, number: u32) -> Row
        ensures { (self.new, result) ≡ seen.end_a2_at self.old number None }
    {
        let Some(leg) = self.in_leg(number) else {
            return Err(Refused::Unexpected);
        };
        let InStage::Waits {
            window,
            timeout,
            ended: false,
        } = leg.stage
        else {
            return Err(Refused::Unexpected);
        };
        self.set_in(InLeg {
            stage: InStage::Waits {
                window,
                timeout,
                ended: true,
            },
            ..leg
        });
        Ok(())
    }

    /// Whether END/B1 was put on the writing channel, and every is leg is ended or finished.
    fn is_complete(&self) -> bool
        ensures { result ≡ seen.is_complete self.now }
    {
        self.is_open() && self.end_mark.is_put() && are_lost(&self.ins)
    }

    /// The work is done where it is complete.
    fn complete(&mut self)
        ensures { self.new ≡ seen.completed self.old }
    {
        if self.is_complete() {
            self.set_stage(Stage::Ended);
        }
    }

    /// The work may be done, or the meter wishes for a successor.
    pub(crate) fn settle(&mut self)
        ensures { self.new ≡ seen.settled self.old }
    {
        self.complete();
        self.wish();
    }

    pub(crate) fn leg_is_done(&self, leg: Leg) -> bool
        ensures { result ≡ seen.is_done self.now leg }
    {
        match leg.kind {
            LegKind::InServer => in_is_done(self.in_leg(leg.number)),
            LegKind::OutServer => self.out_place(leg.number).is_none(),
            LegKind::ClientIn | LegKind::ClientOut => false,
        }
    }

    /// The last message of the leg was drawn to its end.
    pub(crate) fn leg_drawn(&mut self, leg: Leg)
        ensures { self.new ≡ seen.drawn self.old leg }
    {
        if leg.kind == LegKind::InServer && in_is_drawn(self.in_leg(leg.number)) {
            self.forget_in(leg.number);
            self.settle();
        }
    }

    /// Whether END came on an is leg.
    fn ended_on(&self, leg: InLeg) -> bool
        ensures { result ≡ seen.ended_on self.now leg (channel_at self.now leg.number) }
    {
        match self.channel_at(leg.number) {
            None => matches!(leg.stage, InStage::Waits { ended: true, .. }),
            Some(which) => self.line.is_over(which),
        }
    }

    pub(crate) fn leg_only_marks(&self, leg: Leg) -> bool
        ensures { result ≡ seen.only_marks self.now leg }
    {
        match leg.kind {
            LegKind::InServer => match self.in_leg(leg.number) {
                None => false,
                Some(leg) => {
                    !leg.leaving.stays() || (self.end_mark.is_put() && self.ended_on(leg))
                }
            },
            LegKind::OutServer => leg.number < self.writing,
            LegKind::ClientIn | LegKind::ClientOut => false,
        }
    }

    /// An AckTo 3 for the channel of an os leg is dropped.
    fn drop_ack(&mut self, number: u32)
        ensures { self.new ≡ seen.with_ack_dropped self.old number }
    {
        if let Some(cookie) = self.out_cookie(number) {
            self.out_line.drop_ack_of(cookie);
        }
    }

    /// An is leg is lost; while its channel waits, that is kept.
    fn lose_in(&mut self, number: u32)
        ensures { self.new ≡ seen.lost_in self.old number (in_leg number self.old.ins) }
    {
        match self.in_leg(number) {
            Some(leg) if is_waiting(leg.stage) && leg.leaving.stays() => self.set_in(InLeg {
                leaving: Leaving::Lost,
                ..leg
            }),
            _ => self.forget_in(number),
        }
    }

    /// The leg is lost, and is finished.
    pub(crate) fn leg_mark(&mut self, leg: Leg)
        ensures { self.new ≡ seen.mark self.old leg }
    {
        match leg.kind {
            LegKind::InServer => {
                self.lose_in(leg.number);
                self.settle();
            }
            LegKind::OutServer => {
                self.drop_ack(leg.number);
                self.forget_out(leg.number);
                self.settle();
            }
            LegKind::ClientIn | LegKind::ClientOut => {}
        }
    }
}
