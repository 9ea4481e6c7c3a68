//! An in proxy as a role of a node.

use crate::row::Row;
use crate::state::{InProxyRole, is_client_leg};
use rh_line::{Leg, Which};
use rh_rts::Cookie;
use rh_shell::{Begun, Count, HeadRefused, HeadTaken, Phase, Refused, Role};
use rh_sig::{Named, Pipe};

impl InProxyRole {
    ghost use Rattle.std.specs.Prelude.{◌≡◌};
    ghost use Rattle.rh_line.specs.Lines.{IsThere};
    ghost use Rattle.rh_inproxy.specs.Machine as seen;

    /// A packet behind the first one of a ci leg.
    fn on_channel(&mut self, which: Which, packet: Named) -> Row
        requires { IsThere self.old.line which }
        ensures { (self.new, result) ≡ seen.on_channel self.old which packet }
    {
        match packet {
            Named::AckTo(to, received, available, channel) => {
                self.on_ack_to(which, to, received, available, channel)
            }
            Named::OutR1A7(to, successor) => self.on_out_r1_a7(which, to, successor),
            Named::KeepAlive(keepalive) => self.on_keep_alive(which, keepalive),
            Named::EndA1 => self.on_end_a1(which),
            Named::InR1A5(successor) => self.on_in_r1_a5(which, successor),
            _ => Err(Refused::Unexpected),
        }
    }

    /// A packet on a ci leg.
    fn on_ci(&mut self, number: u32, packet: Named) -> Row
        ensures { (self.new, result) ≡ seen.on_ci self.old number packet }
    {
        match packet {
            Named::ConnB1(_, connection, channel, _, keepalive, group) => {
                self.on_conn_b1(number, connection, channel, keepalive, group)
            }
            Named::InR1A1(_, connection, predecessor, channel) => {
                self.on_in_r1_a1(number, connection, predecessor, channel)
            }
            _ => match self.channel_of(number) {
                None => Err(Refused::Unexpected),
                Some(which) => self.on_channel(which, packet),
            },
        }
    }

    /// A packet on the is leg.
    fn on_is(&mut self, packet: Named) -> Row
        ensures { (self.new, result) ≡ seen.on_is self.old packet }
    {
        match packet {
            Named::ConnB3(size, _) => self.on_conn_b3(size),
            Named::InR1B2(size) => self.on_in_r1_b2(size),
            Named::InR1B1 => self.on_in_r1_b1(),
            Named::Ack(received, available, channel) => self.on_ack(received, available, channel),
            _ => Err(Refused::Unexpected),
        }
    }
}

impl Role for InProxyRole {
    ghost use Rattle.rh_inproxy.specs.Machine.{rules as in_proxy_rules};

    ghost rules = { in_proxy_rules };

    fn phase(&self) -> Phase {
        self.phase_of()
    }

    fn wants(&self, leg: Leg) -> bool {
        self.wants_leg(leg)
    }

    fn may_up(&self, leg: Leg) -> bool {
        self.wants_leg(leg) || self.may_accept(leg)
    }

    fn was_up(&self, leg: Leg) -> bool {
        self.had_leg(leg)
    }

    fn up(&mut self, leg: Leg, _cookie: Cookie) {
        self.raise(leg);
    }

    fn pipe(&self, leg: Leg) -> Option<Pipe> {
        self.pipe_of(leg)
    }

    fn head(&mut self, leg: Leg, text: &[u8]) -> Result<HeadTaken, HeadRefused> {
        self.on_head(leg, text)
    }

    fn pdu(&mut self, leg: Leg, _count: Count, pdu: &[u8]) -> Result<(), Refused> {
        if !is_client_leg(leg) {
            return Err(Refused::Unexpected);
        }
        match self.channel_of(leg.number) {
            None => Err(Refused::Unexpected),
            Some(which) => self.on_pdu(which, pdu),
        }
    }

    fn packet(&mut self, leg: Leg, _count: Count, packet: Named) -> Result<(), Refused> {
        if is_client_leg(leg) {
            self.on_ci(leg.number, packet)
        } else if self.is_server_leg(leg) {
            self.on_is(packet)
        } else {
            Err(Refused::Unexpected)
        }
    }

    fn is_done(&self, leg: Leg) -> bool {
        self.is_done_with(leg)
    }

    fn put(&mut self, leg: Leg, begun: &mut Begun) {
        if is_client_leg(leg) {
            self.put_echo(leg.number, begun);
        } else if self.is_server_leg(leg) {
            self.put_on_server_leg(begun);
        }
    }

    fn drawn(&mut self, leg: Leg) {
        self.on_drawn(leg);
    }

    fn only_marks(&self, leg: Leg) -> bool {
        self.goes_on_without(leg)
    }

    fn mark(&mut self, leg: Leg) {
        self.lose(leg);
    }

    fn answers_on(&self) -> Option<Leg> {
        Some(self.first_client_leg())
    }

    fn silence(&self, leg: Leg) -> Option<u32> {
        self.silence_of(leg)
    }

    fn ping_after(&self, leg: Leg) -> Option<u64> {
        self.ping_time(leg)
    }

    fn ping(&mut self, leg: Leg) {
        self.owe_ping(leg);
    }
}
