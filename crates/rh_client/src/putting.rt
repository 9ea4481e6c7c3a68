//! What a client puts: the next message of a leg. Each place of the order is a method, which
//! answers whether it put something.

use crate::channels::Opening;
use crate::lengths::{CONN_A1_LEN, OUT_R1_A3_C1_LEN};
use crate::replacement::{InStage, OutStage, Replacement, Waits};
use crate::requests::{begin_in_request, begin_out_request};
use crate::state::ClientRole;
use rh_line::{LegKind, Which};
use rh_rts::{TO_OUT_PROXY, TO_SERVER};
use rh_shell::{Begun, Phase};
use rh_sig::Named;
use rh_sig::lengths::{
    ACK_TO_LEN, CONN_B1_LEN, END_A1_LEN, IN_R1_A1_LEN, IN_R1_A5_LEN, OUT_R1_A7_LEN, PING_LEN,
};
use rh_sig::ranges::PROTOCOL_VERSION;

impl ClientRole {
    ghost use Rattle.std.specs.Prelude.{◌≡◌, []};
    ghost use Rattle.std.specs.Option.{is_some};
    ghost use Rattle.rh_sig.specs.Values.{MayBeWritten};
    ghost use Rattle.rh_shell.specs.Rules.{put_into};
    ghost use Rattle.rh_client.specs.Putting as seen;

    // ---- what a leg begins with

    fn conn_b1(&self) -> Named
        ensures packet { result ≡ seen.conn_b1 self.now }
        ensures writable { MayBeWritten result }
    {
        Named::ConnB1(
            PROTOCOL_VERSION,
            self.config.connection,
            self.writing.cookie,
            self.config.lifetime,
            self.config.keepalive,
            self.config.group,
        )
    }

    #[tactic(auto, unfolding(crate::specs::Putting::put_conn_b1))]
    fn put_conn_b1(&mut self, begun: &mut Begun) -> bool
        requires { begun.old ≡ [] }
        ensures put { (self.new, begun.new) ≡ put_into self.old (seen.put_conn_b1 self.old) }
        ensures told { result ≡ is_some (seen.put_conn_b1 self.old) }
    {
        let packet = self.conn_b1();
        if !self.writing.count(CONN_B1_LEN) {
            return false;
        }
        self.writing.opening = Opening::Put;
        begun.begin_packet(&packet);
        true
    }

    fn in_r1_a1(&self) -> Named
        ensures packet { result ≡ seen.in_r1_a1 self.now }
        ensures writable { MayBeWritten result }
    {
        Named::InR1A1(
            PROTOCOL_VERSION,
            self.config.connection,
            self.writing.cookie,
            self.in_successor.cookie,
        )
    }

    #[tactic(auto, unfolding(crate::specs::Putting::put_in_r1_a1))]
    fn put_in_r1_a1(&mut self, begun: &mut Begun) -> bool
        requires { begun.old ≡ [] }
        ensures put { (self.new, begun.new) ≡ put_into self.old (seen.put_in_r1_a1 self.old) }
        ensures told { result ≡ is_some (seen.put_in_r1_a1 self.old) }
    {
        let packet = self.in_r1_a1();
        if !self.in_successor.count(IN_R1_A1_LEN) {
            return false;
        }
        self.in_successor.opening = Opening::Put;
        begun.begin_packet(&packet);
        true
    }

    fn conn_a1(&self) -> Named
        ensures packet { result ≡ seen.conn_a1 self.now }
        ensures writable { MayBeWritten result }
    {
        Named::ConnA1(
            PROTOCOL_VERSION,
            self.config.connection,
            self.current.cookie,
            self.config.window,
        )
    }

    fn out_r1_a3(&self) -> Named
        ensures packet { result ≡ seen.out_r1_a3 self.now }
        ensures writable { MayBeWritten result }
    {
        Named::OutR1A3(
            PROTOCOL_VERSION,
            self.config.connection,
            self.current.cookie,
            self.out_successor.cookie,
            self.config.window,
        )
    }

    /// On the current OUT channel.
    #[tactic(auto, unfolding(crate::specs::Putting::put_current))]
    fn put_current(&mut self, begun: &mut Begun) -> bool
        requires { begun.old ≡ [] }
        ensures put { (self.new, begun.new)
            ≡ put_into self.old (seen.put_current self.old self.old.current.opening) }
        ensures told { result ≡ is_some (seen.put_current self.old self.old.current.opening) }
    {
        match self.current.opening {
            Opening::Request => {
                begin_out_request(&self.config, CONN_A1_LEN, begun);
                self.current.opening = Opening::First;
                true
            }
            Opening::First => {
                begun.begin_packet(&self.conn_a1());
                self.current.opening = Opening::Put;
                true
            }
            Opening::NotUp | Opening::Second | Opening::Put => false,
        }
    }

    /// On its successor.
    #[tactic(auto, unfolding(crate::specs::Putting::put_out_successor))]
    fn put_out_successor(&mut self, begun: &mut Begun) -> bool
        requires { begun.old ≡ [] }
        ensures put { (self.new, begun.new)
            ≡ put_into self.old (seen.put_out_successor self.old self.old.out_successor.opening) }
        ensures told { result
            ≡ is_some (seen.put_out_successor self.old self.old.out_successor.opening) }
    {
        match self.out_successor.opening {
            Opening::Request => {
                begin_out_request(&self.config, OUT_R1_A3_C1_LEN, begun);
                self.out_successor.opening = Opening::First;
                true
            }
            Opening::First => {
                begun.begin_packet(&self.out_r1_a3());
                self.out_successor.opening = Opening::Second;
                true
            }
            Opening::Second => {
                begun.begin_packet(&Named::OutR2C1);
                self.out_successor.opening = Opening::Put;
                true
            }
            Opening::NotUp | Opening::Put => false,
        }
    }

    #[tactic(auto, unfolding(crate::specs::Putting::put_out))]
    fn put_out(&mut self, number: u32, begun: &mut Begun) -> bool
        requires { begun.old ≡ [] }
        ensures put { (self.new, begun.new) ≡ put_into self.old (seen.put_out self.old number) }
        ensures told { result ≡ is_some (seen.put_out self.old number) }
    {
        if self.is_current(number) {
            self.put_current(begun)
        } else if self.is_out_successor(number) {
            self.put_out_successor(begun)
        } else {
            false
        }
    }

    // ---- what is due on the writing channel

    fn put_in_r1_a5(&mut self, out_waits: bool, begun: &mut Begun) -> bool
        requires { begun.old ≡ [] }
        ensures put { (self.new, begun.new)
            ≡ put_into self.old (seen.put_in_r1_a5 self.old out_waits) }
        ensures told { result ≡ is_some (seen.put_in_r1_a5 self.old out_waits) }
    {
        if !self.writing.meter.fits(IN_R1_A5_LEN) {
            return false;
        }
        begun.begin_packet(&Named::InR1A5(self.in_successor.cookie));
        self.hand_over(out_waits);
        true
    }

    fn put_out_r1_a7(&mut self, waits: Waits, begun: &mut Begun) -> bool
        requires { begun.old ≡ [] }
        ensures put { (self.new, begun.new)
            ≡ put_into self.old (seen.put_out_r1_a7 self.old waits) }
        ensures told { result ≡ is_some (seen.put_out_r1_a7 self.old waits) }
    {
        if !self.writing.meter.fits(OUT_R1_A7_LEN) {
            return false;
        }
        self.writing.meter.put(OUT_R1_A7_LEN);
        self.replacement = Replacement::Out {
            stage: OutStage::Switched,
            waits,
        };
        begun.begin_packet(&Named::OutR1A7(TO_SERVER, self.out_successor.cookie));
        true
    }

    #[tactic(auto, unfolding(crate::specs::Putting::put_due))]
    fn put_due(&mut self, begun: &mut Begun) -> bool
        requires { begun.old ≡ [] }
        ensures put { (self.new, begun.new) ≡ put_into self.old (seen.put_due self.old) }
        ensures told { result ≡ is_some (seen.put_due self.old) }
    {
        match self.replacement {
            Replacement::In {
                stage: InStage::Answered,
                out_waits,
            } => self.put_in_r1_a5(out_waits, begun),
            Replacement::Out {
                stage: OutStage::Answered,
                waits,
            } => self.put_out_r1_a7(waits, begun),
            _ => false,
        }
    }

    // ---- acknowledgements

    #[tactic(auto, unfolding(crate::specs::Putting::put_ack_of))]
    fn put_ack_of(&mut self, which: Which, begun: &mut Begun) -> bool
        requires { begun.old ≡ [] }
        ensures put { (self.new, begun.new) ≡ put_into self.old (seen.put_ack_of self.old which) }
        ensures told { result ≡ is_some (seen.put_ack_of self.old which) }
    {
        let Some(ack) = self.ack_due(which) else {
            return false;
        };
        if !self.writing.count(ACK_TO_LEN) {
            return false;
        }
        let of = self.cookie_of(which);
        self.line.told(which, &ack);
        begun.begin_packet(&Named::AckTo(TO_OUT_PROXY, ack.received, ack.available, of));
        true
    }

    #[tactic(auto, unfolding(crate::specs::Putting::put_ack))]
    fn put_ack(&mut self, begun: &mut Begun) -> bool
        requires { begun.old ≡ [] }
        ensures put { (self.new, begun.new) ≡ put_into self.old (seen.put_ack self.old) }
        ensures told { result ≡ is_some (seen.put_ack self.old) }
    {
        self.put_ack_of(Which::Current, begun) || self.put_ack_of(Which::Next, begun)
    }

    // ---- PDUs, the end and Pings

    /// Whether a PDU of so many bytes may go.
    fn lets_pdu(&self, len: u16) -> bool
        ensures { result ≡ seen.lets_pdu self.now len }
    {
        self.is_open() && self.writing.window.may_send(len) && self.writing.meter.may_put(len)
    }

    #[tactic(auto, unfolding(crate::specs::Putting::put_pdu))]
    fn put_pdu(&mut self, begun: &mut Begun) -> bool
        requires { begun.old ≡ [] }
        ensures put { (self.new, begun.new) ≡ put_into self.old (seen.put_pdu self.old) }
        ensures told { result ≡ is_some (seen.put_pdu self.old) }
    {
        let Some(len) = self.queue.front() else {
            return false;
        };
        if !self.lets_pdu(len) {
            return false;
        }
        self.writing.send(len);
        begun.begin_popped(&mut self.queue);
        true
    }

    /// Whether END is to be put on the writing channel.
    fn is_end_due(&self) -> bool
        ensures { result ≡ seen.is_end_due self.now }
    {
        self.is_open()
            && self.is_closing
            && self.queue.front().is_none()
            && !self.writing.is_end_put
    }

    #[tactic(auto, unfolding(crate::specs::Putting::put_end))]
    fn put_end(&mut self, begun: &mut Begun) -> bool
        requires { begun.old ≡ [] }
        ensures put { (self.new, begun.new) ≡ put_into self.old (seen.put_end self.old) }
        ensures told { result ≡ is_some (seen.put_end self.old) }
    {
        if !self.is_end_due() || !self.writing.meter.fits(END_A1_LEN) {
            return false;
        }
        self.writing.meter.put(END_A1_LEN);
        self.writing.is_end_put = true;
        begun.begin_packet(&Named::EndA1);
        true
    }

    #[tactic(auto, unfolding(crate::specs::Putting::put_ping))]
    fn put_ping(&mut self, begun: &mut Begun) -> bool
        requires { begun.old ≡ [] }
        ensures put { (self.new, begun.new) ≡ put_into self.old (seen.put_ping self.old) }
        ensures told { result ≡ is_some (seen.put_ping self.old) }
    {
        if !self.writing.is_ping_due || !self.writing.count(PING_LEN) {
            return false;
        }
        self.writing.is_ping_due = false;
        begun.begin_packet(&Named::Ping);
        true
    }

    #[tactic(auto, unfolding(crate::specs::Putting::put_successor_ping))]
    fn put_successor_ping(&mut self, begun: &mut Begun) -> bool
        requires { begun.old ≡ [] }
        ensures put { (self.new, begun.new)
            ≡ put_into self.old (seen.put_successor_ping self.old) }
        ensures told { result ≡ is_some (seen.put_successor_ping self.old) }
    {
        if !self.in_successor.is_ping_due || !self.in_successor.count(PING_LEN) {
            return false;
        }
        self.in_successor.is_ping_due = false;
        begun.begin_packet(&Named::Ping);
        true
    }

    // ---- the next message

    /// On the writing channel, behind what its leg begins with.
    #[tactic(auto, unfolding(crate::specs::Putting::put_next))]
    fn put_next(&mut self, begun: &mut Begun) -> bool
        requires { begun.old ≡ [] }
        ensures put { (self.new, begun.new) ≡ put_into self.old (seen.put_next self.old) }
        ensures told { result ≡ is_some (seen.put_next self.old) }
    {
        self.put_due(begun)
            || self.put_ack(begun)
            || self.put_pdu(begun)
            || self.put_end(begun)
            || self.put_ping(begun)
    }

    #[tactic(auto, unfolding(crate::specs::Putting::put_writing))]
    fn put_writing(&mut self, begun: &mut Begun) -> bool
        requires { begun.old ≡ [] }
        ensures put { (self.new, begun.new)
            ≡ put_into self.old (seen.put_writing self.old self.old.writing.opening) }
        ensures told { result ≡ is_some (seen.put_writing self.old self.old.writing.opening) }
    {
        match self.writing.opening {
            Opening::Request => {
                begin_in_request(&self.config, begun);
                self.writing.opening = Opening::First;
                true
            }
            Opening::First => self.put_conn_b1(begun),
            Opening::Put => self.put_next(begun),
            Opening::NotUp | Opening::Second => false,
        }
    }

    #[tactic(auto, unfolding(crate::specs::Putting::put_in_successor))]
    fn put_in_successor(&mut self, begun: &mut Begun) -> bool
        requires { begun.old ≡ [] }
        ensures put { (self.new, begun.new)
            ≡ put_into self.old (seen.put_in_successor self.old self.old.in_successor.opening) }
        ensures told { result
            ≡ is_some (seen.put_in_successor self.old self.old.in_successor.opening) }
    {
        match self.in_successor.opening {
            Opening::Request => {
                begin_in_request(&self.config, begun);
                self.in_successor.opening = Opening::First;
                true
            }
            Opening::First => self.put_in_r1_a1(begun),
            Opening::Put => self.put_successor_ping(begun),
            Opening::NotUp | Opening::Second => false,
        }
    }

    #[tactic(auto, unfolding(crate::specs::Putting::put_in))]
    fn put_in(&mut self, number: u32, begun: &mut Begun) -> bool
        requires { begun.old ≡ [] }
        ensures put { (self.new, begun.new) ≡ put_into self.old (seen.put_in self.old number) }
        ensures told { result ≡ is_some (seen.put_in self.old number) }
    {
        if self.is_writing(number) {
            self.put_writing(begun)
        } else if self.is_in_successor(number) {
            self.put_in_successor(begun)
        } else {
            false
        }
    }

    #[tactic(auto, unfolding(crate::specs::Putting::put_by))]
    fn put_by(&mut self, number: u32, kind: LegKind, begun: &mut Begun) -> bool
        requires { begun.old ≡ [] }
        ensures put { (self.new, begun.new) ≡ put_into self.old (seen.put_by self.old number kind) }
        ensures told { result ≡ is_some (seen.put_by self.old number kind) }
    {
        match kind {
            LegKind::ClientOut => self.put_out(number, begun),
            LegKind::ClientIn => self.put_in(number, begun),
            LegKind::OutServer | LegKind::InServer => false,
        }
    }

    /// Behind a put the work may be done; else the meter may want a successor.
    fn settle_or_wish(&mut self)
        ensures { self.new ≡ seen.settled_or_wished self.old }
    {
        if self.is_over() {
            self.phase = Phase::Ended;
        } else {
            self.wish();
        }
    }

    /// Puts the next message of a leg.
    pub(crate) fn put_on(&mut self, number: u32, kind: LegKind, begun: &mut Begun)
        requires { begun.old ≡ [] }
        ensures { (self.new, begun.new)
            ≡ put_into self.old (seen.settled_pick (seen.put_by self.old number kind)) }
    {
        if self.put_by(number, kind, begun) {
            self.settle_or_wish();
        }
    }
}
