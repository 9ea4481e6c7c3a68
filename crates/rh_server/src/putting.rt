//! What a server puts.

use crate::out_line::{LegGate, length_of};
use crate::state::{
    Edge, EndMark, Greeting, InLeg, Leaving, OutLeg, Replacement, ServerRole, Tells,
};
use rh_line::{LAST_NUMBER, Leg, LegKind, Which};
use rh_rts::NO_COOKIE;
use rh_shell::{Begun, GREETING};
use rh_sig::Named;
use rh_sig::lengths::{END_B1_LEN, OUT_R1_A9_LEN};
use rh_sig::ranges::PROTOCOL_VERSION;
use rh_window::Ack;

impl OutLeg {
    ghost use Rattle.std.specs.Prelude.{◌≡◌, ◌&&◌, true};
    ghost use Rattle.rh_window.specs.Sending.{may_send};
    ghost use Rattle.rh_keep.specs.Meters.{fits, may_put};
    ghost use Rattle.rh_server.specs.States.{is_due};
    ghost use Rattle.rh_server.specs.OutLegs as seen;

    /// Whether the greeting is due.
    fn is_greeting_due(&self) -> bool
        ensures { result ≡ is_due self.now.greeting }
    {
        matches!(self.greeting, Greeting::Due)
    }

    /// The meter counts what is put.
    fn counts(&mut self, len: u16)
        requires { fits self.old.meter len ≡ true }
        ensures { self.new ≡ seen.counted self.old len }
    {
        self.meter.put(len);
    }

    /// Whether a PDU may go: on the writing channel, where its window and its meter allow it.
    fn may_go(&self, writing: u32, len: u16) -> bool
        ensures { result ≡ seen.may_go self.now writing len }
    {
        self.number == writing && self.window.may_send(len) && self.meter.may_put(len)
    }

    /// A PDU goes that may go.
    fn goes(&mut self, len: u16)
        requires { may_send self.old.window len && may_put self.old.meter len ≡ true }
        ensures { self.new ≡ seen.went self.old len }
    {
        self.window.sent(len);
        self.meter.put(len);
    }

    /// Whether END/B1 may go: on the writing channel, where it fits.
    fn may_end(&self, writing: u32) -> bool
        ensures { result ≡ seen.may_end self.now writing }
    {
        self.number == writing && self.meter.fits(END_B1_LEN)
    }
}

impl ServerRole {
    ghost use Rattle.std.specs.Prelude.{◌≡◌, ◌<◌, [], IfSome, Some, true, slice_get, length};
    ghost use Rattle.rh_keep.specs.Meters.{fits};
    ghost use Rattle.rh_shell.specs.Rules.{put_into};
    ghost use Rattle.rh_server.specs.declared.state.Tells.TheVariants.{ConnB3, InR1B2};
    ghost use Rattle.rh_server.specs.States.{is_some};
    ghost use Rattle.rh_server.specs.OutReplacement.{last_number, handed};
    ghost use Rattle.rh_server.specs.Putting as seen;

    // Each of these answers whether it put something.

    // ---- on an is leg

    fn put_in_greeting(&mut self, leg: InLeg, begun: &mut Begun) -> bool
        requires { begun.old ≡ [] }
        ensures put { (self.new, begun.new)
            ≡ put_into self.old (seen.put_in_greeting self.old leg) }
        ensures told { result ≡ is_some (seen.put_in_greeting self.old leg) }
    {
        if matches!(leg.greeting, Greeting::Put) {
            return false;
        }
        self.set_in(InLeg {
            greeting: Greeting::Put,
            ..leg
        });
        begun.begin(&GREETING);
        true
    }

    /// The window of the current channel is told.
    fn tell(&mut self, number: u32)
        ensures { self.new ≡ seen.told_by self.old number }
    {
        if number == self.current.leg && matches!(self.edge, Edge::Shut) {
            self.line.tell(Which::Current);
            self.edge = Edge::Told;
        }
    }

    /// CONN/B3 once the server is open, and IN_R1/B2 once the channel is current.
    fn put_tells(&mut self, leg: InLeg, begun: &mut Begun) -> bool
        requires { begun.old ≡ [] }
        ensures put { (self.new, begun.new) ≡ put_into self.old (seen.put_tells self.old leg) }
        ensures told { result ≡ is_some (seen.put_tells self.old leg) }
    {
        match leg.tells {
            Tells::Nothing => false,
            Tells::ConnB3 => self.put_conn_b3(leg, begun),
            Tells::InR1B2 => self.put_in_r1_b2(leg, begun),
        }
    }

    fn put_conn_b3(&mut self, leg: InLeg, begun: &mut Begun) -> bool
        requires { begun.old ≡ [] }
        ensures put { (self.new, begun.new)
            ≡ put_into self.old (seen.put_tells_by self.old leg ConnB3) }
        ensures told { result ≡ is_some (seen.put_tells_by self.old leg ConnB3) }
    {
        if !self.is_open() {
            return false;
        }
        let window = self.window_size();
        self.set_in(InLeg {
            tells: Tells::Nothing,
            ..leg
        });
        begun.begin_packet(&Named::ConnB3(window, PROTOCOL_VERSION));
        true
    }

    fn put_in_r1_b2(&mut self, leg: InLeg, begun: &mut Begun) -> bool
        requires { begun.old ≡ [] }
        ensures put { (self.new, begun.new)
            ≡ put_into self.old (seen.put_tells_by self.old leg InR1B2) }
        ensures told { result ≡ is_some (seen.put_tells_by self.old leg InR1B2) }
    {
        if !self.was_current(leg) {
            return false;
        }
        let window = self.window_size();
        self.tell(leg.number);
        self.set_in(InLeg {
            tells: Tells::Nothing,
            ..leg
        });
        begun.begin_packet(&Named::InR1B2(window));
        true
    }

    /// Whether the leg carries the current channel, or carried it.
    fn was_current(&self, leg: InLeg) -> bool
        ensures { result ≡ seen.was_current self.now leg }
    {
        leg.number == self.current.leg || !leg.leaving.stays()
    }

    /// IN_R1/B1, behind which the leg is left.
    fn put_b1(&mut self, leg: InLeg, begun: &mut Begun) -> bool
        requires { begun.old ≡ [] }
        ensures put { (self.new, begun.new) ≡ put_into self.old (seen.put_b1 self.old leg) }
        ensures told { result ≡ is_some (seen.put_b1 self.old leg) }
    {
        if !matches!(leg.leaving, Leaving::InR1B1) {
            return false;
        }
        self.set_in(InLeg {
            leaving: Leaving::Left,
            ..leg
        });
        begun.begin_packet(&Named::InR1B1);
        true
    }

    /// The acknowledgement of the current channel that is due.
    fn ack_due(&self, leg: InLeg) -> Option<Ack>
        ensures { result ≡ seen.ack_due self.now leg }
    {
        if leg.number != self.current.leg || self.is_left {
            return None;
        }
        if self.line.is_over(Which::Current) {
            return None;
        }
        self.line.due(Which::Current)
    }

    fn put_ack(&mut self, leg: InLeg, begun: &mut Begun) -> bool
        requires { begun.old ≡ [] }
        ensures put { (self.new, begun.new) ≡ put_into self.old (seen.put_ack self.old leg) }
        ensures told { result ≡ is_some (seen.put_ack self.old leg) }
    {
        let Some(ack) = self.ack_due(leg) else {
            return false;
        };
        self.line.told(Which::Current, &ack);
        begun.begin_packet(&Named::Ack(ack.received, ack.available, self.current.cookie));
        true
    }

    fn next_in(&mut self, leg: InLeg, begun: &mut Begun)
        requires { begun.old ≡ [] }
        ensures { (self.new, begun.new) ≡ put_into self.old (seen.next_in self.old leg) }
    {
        let _ = self.put_in_greeting(leg, begun)
            || self.put_tells(leg, begun)
            || self.put_b1(leg, begun)
            || self.put_ack(leg, begun);
    }

    pub(crate) fn put_in(&mut self, number: u32, begun: &mut Begun)
        requires { begun.old ≡ [] }
        ensures { (self.new, begun.new) ≡ put_into self.old (seen.put_in self.old number) }
    {
        if let Some(leg) = self.in_leg(number) {
            self.next_in(leg, begun);
        }
    }

    // ---- on an os leg, by its place

    fn put_out_greeting(&mut self, place: usize, begun: &mut Begun) -> bool
        requires empty { begun.old ≡ [] }
        requires there { place < length self.old.outs }
        ensures put { (self.new, begun.new)
            ≡ put_into self.old (seen.put_out_greeting self.old place) }
        ensures told { result ≡ is_some (seen.put_out_greeting self.old place) }
    {
        if !self.outs[place].is_greeting_due() {
            return false;
        }
        self.outs[place].greeting = Greeting::Put;
        begun.begin(&GREETING);
        true
    }

    /// What lets packets go on the leg.
    fn gate(&self, place: usize) -> LegGate
        requires there { place < length self.now.outs }
        ensures { Some result ≡ seen.gate_at self.now (slice_get self.now.outs place) }
    {
        let leg = &self.outs[place];
        LegGate {
            cookie: match leg.cookie {
                None => NO_COOKIE,
                Some(cookie) => cookie,
            },
            meter: leg.meter,
            is_writing: leg.number == self.writing,
            hands_over: self.may_succeed(),
        }
    }

    /// Whether the successor may take the writing channel's place.
    fn may_succeed(&self) -> bool
        ensures { result ≡ seen.may_succeed self.now }
    {
        matches!(self.replacement, Replacement::Confirmed) && self.writing < LAST_NUMBER
    }

    /// The meter of the leg counts what is put.
    fn counts(&mut self, place: usize, len: u16)
        requires there { place < length self.old.outs }
        requires fits { IfSome (slice_get self.old.outs place)
            (λ leg. fits leg.meter len ≡ true) }
        ensures { self.new ≡ seen.counts self.old place len }
    {
        self.outs[place].counts(len);
    }

    /// A packet that waited is put, which the leg's gate let go.
    fn was_put(&mut self, place: usize, packet: &Named)
        requires there { place < length self.old.outs }
        requires let_go { seen.WasLet self.old place packet.now }
        ensures { self.new ≡ seen.was_put self.old place packet.now }
    {
        match packet {
            Named::AckTo(3, ..) => {}
            Named::OutR1A9 => {
                self.counts(place, OUT_R1_A9_LEN);
                self.succeeds();
            }
            packet => self.counts(place, length_of(packet)),
        }
    }

    /// The successor is the writing channel, and END was not put on it.
    fn succeeds(&mut self)
        requires { self.old.writing < last_number }
        ensures { self.new ≡ handed self.old }
    {
        self.writing += 1;
        self.end_mark = EndMark::Unput;
        self.replacement = Replacement::Steady;
    }

    /// A packet that waits.
    fn put_waiting(&mut self, place: usize, begun: &mut Begun) -> bool
        requires empty { begun.old ≡ [] }
        requires there { place < length self.old.outs }
        ensures put { (self.new, begun.new)
            ≡ put_into self.old (seen.put_waiting self.old place) }
        ensures told { result ≡ is_some (seen.put_waiting self.old place) }
    {
        let gate = self.gate(place);
        let Some(due) = self.out_line.take(&gate) else {
            return false;
        };
        self.was_put(place, &due.packet);
        begun.begin_packet(&due.packet);
        true
    }

    /// Whether a PDU may go on the leg.
    fn may_go_at(&self, place: usize, len: u16) -> bool
        requires there { place < length self.now.outs }
        ensures { result ≡ seen.may_go_at self.now len (slice_get self.now.outs place) }
    {
        self.outs[place].may_go(self.writing, len)
    }

    /// The leg counts a PDU that may go.
    fn went(&mut self, place: usize, len: u16)
        requires there { place < length self.old.outs }
        requires may_go { seen.may_go_at self.old len (slice_get self.old.outs place) ≡ true }
        ensures { self.new ≡ seen.with_went self.old place len }
    {
        self.outs[place].goes(len);
    }

    /// The front PDU, where the window and the meter of the writing channel allow it.
    fn put_pdu(&mut self, place: usize, begun: &mut Begun) -> bool
        requires empty { begun.old ≡ [] }
        requires there { place < length self.old.outs }
        ensures put { (self.new, begun.new) ≡ put_into self.old (seen.put_pdu self.old place) }
        ensures told { result ≡ is_some (seen.put_pdu self.old place) }
    {
        let Some(len) = self.queue.front() else {
            return false;
        };
        if !self.may_go_at(place, len) {
            return false;
        }
        self.went(place, len);
        begun.begin_popped(&mut self.queue);
        true
    }

    /// Whether END/B1 is due: none is given any more, and it was not put.
    fn is_end_due(&self) -> bool
        ensures { result ≡ seen.is_end_due self.now }
    {
        self.is_closing() && !self.end_mark.is_put() && self.queue.front().is_none()
    }

    /// Whether END/B1 may go on the leg.
    fn may_end_at(&self, place: usize) -> bool
        requires there { place < length self.now.outs }
        ensures { result ≡ seen.may_end_at self.now (slice_get self.now.outs place) }
    {
        self.outs[place].may_end(self.writing)
    }

    /// END/B1, which may go, is put: the leg's meter counts it.
    fn ended(&mut self, place: usize)
        requires there { place < length self.old.outs }
        requires may_end { seen.may_end_at self.old (slice_get self.old.outs place) ≡ true }
        ensures { self.new ≡ seen.with_end_put self.old place }
    {
        self.outs[place].counts(END_B1_LEN);
        self.end_mark = EndMark::Put;
    }

    /// END/B1, once on the writing channel, where no PDU is left.
    fn put_end(&mut self, place: usize, begun: &mut Begun) -> bool
        requires empty { begun.old ≡ [] }
        requires there { place < length self.old.outs }
        ensures put { (self.new, begun.new) ≡ put_into self.old (seen.put_end self.old place) }
        ensures told { result ≡ is_some (seen.put_end self.old place) }
    {
        if !self.is_end_due() || !self.may_end_at(place) {
            return false;
        }
        self.ended(place);
        begun.begin_packet(&Named::EndB1);
        true
    }

    /// A PDU, or END/B1 behind all.
    fn put_pdu_or_end(&mut self, place: usize, begun: &mut Begun) -> bool
        requires empty { begun.old ≡ [] }
        requires there { place < length self.old.outs }
        ensures put { (self.new, begun.new)
            ≡ put_into self.old (seen.put_pdu_or_end self.old place) }
        ensures told { result ≡ is_some (seen.put_pdu_or_end self.old place) }
    {
        self.put_pdu(place, begun) || self.put_end(place, begun)
    }

    fn next_out(&mut self, place: usize, begun: &mut Begun) -> bool
        requires empty { begun.old ≡ [] }
        requires there { place < length self.old.outs }
        ensures put { (self.new, begun.new) ≡ put_into self.old (seen.next_out self.old place) }
        ensures told { result ≡ is_some (seen.next_out self.old place) }
    {
        self.put_waiting(place, begun) || self.put_pdu_or_end(place, begun)
    }

    /// Puts the next message behind the greeting, and looks whether the work is done.
    fn put_open(&mut self, place: usize, begun: &mut Begun)
        requires empty { begun.old ≡ [] }
        requires there { place < length self.old.outs }
        ensures { (self.new, begun.new) ≡ put_into self.old (seen.put_open self.old place) }
    {
        if self.is_open() && self.next_out(place, begun) {
            self.settle();
        }
    }

    fn put_out_place(&mut self, place: usize, begun: &mut Begun)
        requires empty { begun.old ≡ [] }
        requires there { place < length self.old.outs }
        ensures { (self.new, begun.new) ≡ put_into self.old (seen.put_out_place self.old place) }
    {
        if !self.put_out_greeting(place, begun) {
            self.put_open(place, begun);
        }
    }

    pub(crate) fn put_out(&mut self, number: u32, begun: &mut Begun)
        requires { begun.old ≡ [] }
        ensures { (self.new, begun.new) ≡ put_into self.old (seen.put_out self.old number) }
    {
        if let Some(place) = self.out_place(number) {
            self.put_out_place(place, begun);
        }
    }

    /// Puts the next message of a leg.
    pub(crate) fn put_on(&mut self, leg: Leg, begun: &mut Begun)
        requires { begun.old ≡ [] }
        ensures { (self.new, begun.new) ≡ put_into self.old (seen.put self.old leg) }
    {
        match leg.kind {
            LegKind::InServer => self.put_in(leg.number, begun),
            LegKind::OutServer => self.put_out(leg.number, begun),
            LegKind::ClientIn | LegKind::ClientOut => {}
        }
    }
}
