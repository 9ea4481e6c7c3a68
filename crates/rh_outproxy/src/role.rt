//! An out proxy as a role: its table, and each of its rules.

use crate::rows::Row;
use crate::state::OutProxyRole;
use rh_line::Leg;
use rh_rts::Cookie;
use rh_shell::{Begun, Count, HeadRefused, HeadTaken, Phase, Refused, Role};
use rh_sig::{Named, Pipe};

impl OutProxyRole {
    ghost use Rattle.std.specs.Prelude.{◌≡◌};
    ghost use Rattle.rh_outproxy.specs.Machine as seen;

    /// What comes from the client.
    fn on_co(&mut self, count: Count, packet: Named) -> Row
        ensures { (self.new, result) ≡ seen.on_co self.old count packet }
    {
        match packet {
            Named::ConnA1(_, connection, cookie, size) => {
                self.on_conn_a1(count, connection, cookie, size)
            }
            Named::OutR1A3(_, connection, predecessor, cookie, size) => {
                self.on_out_r1_a3(count, connection, predecessor, cookie, size)
            }
            Named::OutR2C1 => self.on_out_r2_c1(count),
            _ => Err(Refused::Unexpected),
        }
    }

    /// What comes from the server.
    fn on_os(&mut self, packet: Named) -> Row
        ensures { (self.new, result) ≡ seen.on_os self.old packet }
    {
        match packet {
            Named::ConnC1(version, size, timeout) => self.on_conn_c1(version, size, timeout),
            Named::AckTo(to, received, available, of) => {
                self.on_ack_to(to, received, available, of)
            }
            Named::InR1A3(to, version, size, timeout) => {
                self.on_in_r1_a3(to, version, size, timeout)
            }
            Named::InR2A3(to) => self.on_in_r2_a3(to),
            Named::OutR1A1(to) => self.on_out_r1_a1(to),
            Named::OutR1A5(to, version, timeout) => self.on_out_r1_a5(to, version, timeout),
            Named::OutR1A9 => self.on_out_r1_a9(),
            Named::EndB1 => self.on_end_b1(),
            _ => Err(Refused::Unexpected),
        }
    }
}

impl Role for OutProxyRole {
    ghost use Rattle.rh_outproxy.specs.Machine.{rules as out_proxy_rules};

    ghost rules = { out_proxy_rules };

    fn phase(&self) -> Phase {
        self.phase_now()
    }

    fn wants(&self, leg: Leg) -> bool {
        self.wants_leg(leg)
    }

    fn may_up(&self, leg: Leg) -> bool {
        self.may_be_up(leg)
    }

    fn was_up(&self, leg: Leg) -> bool {
        self.had_leg(leg)
    }

    fn up(&mut self, leg: Leg, cookie: Cookie) {
        self.leg_is_up(leg, cookie);
    }

    fn pipe(&self, leg: Leg) -> Option<Pipe> {
        if self.is_co(leg) {
            Some(Pipe::CoU)
        } else {
            Some(Pipe::OsD)
        }
    }

    fn head(&mut self, leg: Leg, text: &[u8]) -> Result<HeadTaken, HeadRefused> {
        self.on_head(leg, text)
    }

    fn pdu(&mut self, leg: Leg, _count: Count, pdu: &[u8]) -> Result<(), Refused> {
        if self.is_os(leg) {
            self.on_pdu(pdu)
        } else {
            Err(Refused::Unexpected)
        }
    }

    fn packet(&mut self, leg: Leg, count: Count, packet: Named) -> Result<(), Refused> {
        if self.is_co(leg) {
            self.on_co(count, packet)
        } else if self.is_os(leg) {
            self.on_os(packet)
        } else {
            Err(Refused::Unexpected)
        }
    }

    fn is_done(&self, _leg: Leg) -> bool {
        self.is_over()
    }

    fn put(&mut self, leg: Leg, begun: &mut Begun) {
        self.put_next(leg, begun);
    }

    fn drawn(&mut self, leg: Leg) {
        self.on_drawn(leg);
    }

    fn only_marks(&self, leg: Leg) -> bool {
        self.goes_on_without(leg)
    }

    fn mark(&mut self, leg: Leg) {
        self.mark_leg(leg);
    }

    fn answers_on(&self) -> Option<Leg> {
        self.client_told()
    }

    fn silence(&self, _leg: Leg) -> Option<u32> {
        None
    }

    fn ping_after(&self, leg: Leg) -> Option<u64> {
        self.ping_time(leg)
    }

    fn ping(&mut self, leg: Leg) {
        self.ping_is_due(leg);
    }
}
