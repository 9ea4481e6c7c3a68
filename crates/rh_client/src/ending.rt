//! What is given and taken, and the clean end (profile).

use crate::channels::InChannel;
use crate::state::ClientRole;
use rh_line::{LegKind, LineTake, Which};
use rh_pdu::check;
use rh_pdu::header::GREATEST_FRAG;
use rh_shell::{GiveRefused, Refused};

impl ClientRole {
    ghost use Rattle.std.specs.Prelude.{◌≡◌, IfSome};
    ghost use Rattle.rh_line.specs.Lines.{IsThere, take_answer};
    ghost use Rattle.rh_line.specs.Queue.{put_first};
    ghost use Rattle.rh_client.specs.Ending as seen;

    /// A PDU is given.
    pub(crate) fn give_pdu(&mut self, pdu: &[u8]) -> Result<(), GiveRefused>
        ensures { (self.new, result) ≡ seen.give self.old pdu.now }
    {
        if self.is_closing {
            return Err(GiveRefused::Closing);
        }
        match check(pdu) {
            Err(fault) => Err(GiveRefused::BadPdu(fault)),
            Ok(()) => {
                if self.queue.push(pdu) {
                    Ok(())
                } else {
                    Err(GiveRefused::Full {
                        held: self.queue.held(),
                        len: pdu.len(),
                    })
                }
            }
        }
    }

    /// The next PDU is taken, where one is there.
    pub(crate) fn take_pdu(&mut self, room: &mut [u8; GREATEST_FRAG]) -> LineTake
        ensures answer { result ≡ take_answer self.old.line }
        ensures room { room.new ≡ put_first self.old.line.current.pdus room.old }
        ensures new { self.new ≡ seen.take self.old }
    {
        let answer = self.line.take(room);
        self.pass_on();
        answer
    }

    /// The channel of a leg on which END may come.
    fn end_channel(&self, number: u32) -> Option<Which>
        ensures channel { result ≡ seen.end_channel self.now number }
        ensures there { IfSome result (λ which. IsThere self.now.line which) }
    {
        if self.is_current(number) {
            Some(Which::Current)
        } else if self.line.has_next() && self.is_out_successor(number) {
            Some(Which::Next)
        } else {
            None
        }
    }

    /// END/B2.
    pub(crate) fn on_end_b2(&mut self, number: u32) -> Result<(), Refused>
        ensures { (self.new, result) ≡ seen.on_end_b2 self.old number }
    {
        if !self.is_open() {
            return Err(Refused::Unexpected);
        }
        let Some(which) = self.end_channel(number) else {
            return Err(Refused::Unexpected);
        };
        if self.line.is_over(which) {
            return Err(Refused::Unexpected);
        }
        self.line.end(which);
        self.settle();
        Ok(())
    }

    pub(crate) fn is_done_by(&self, number: u32, kind: LegKind) -> bool
        ensures { result ≡ seen.is_done_by self.now number kind }
    {
        match kind {
            LegKind::ClientOut if self.is_current(number) => self.replacement.is_finished(),
            LegKind::ClientOut => number < self.current.number,
            LegKind::ClientIn => number < self.writing.number,
            LegKind::OutServer | LegKind::InServer => false,
        }
    }

    pub(crate) fn drawn_by(&mut self, number: u32, kind: LegKind)
        ensures { self.new ≡ seen.drawn_by self.old number kind }
    {
        if matches!(kind, LegKind::ClientIn) && number == self.leaving.number {
            self.leaving = InChannel::unopened(0, self.config.lifetime);
        }
    }
}
