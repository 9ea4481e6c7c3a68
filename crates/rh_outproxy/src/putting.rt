//! What an out proxy puts: the next message of a leg.

ghost use Rattle.std.specs.Prelude.{◌≡◌, ◌+◌, ◌≤◌};
ghost use Rattle.rh_http.specs.declared.writing.TheConstants.{ECHO_LEN};
ghost use Rattle.rh_http.specs.Texts.{response_text};
ghost use Rattle.rh_rts.specs.Writing.{over};
ghost use Rattle.rh_outproxy.specs.declared.putting.TheConstants.{RESPONSE_ROOM};
ghost use Rattle.rh_outproxy.specs.Putting.{echo_packet, echo_text};

use crate::state::{Answer, Channel, Mark, OutProxyRole, Ping, ServerLeg};
use rh_http::lengths::PING_ROOM;
use rh_http::{write_echo, write_out_response};
use rh_line::{Leg, Which};
use rh_shell::{Begun, Due, Gate};
use rh_sig::Named;
use rh_sig::lengths::PING_LEN;

/// The most bytes of a response, with the Echo packet behind it.
pub const RESPONSE_ROOM: usize = 128;

/// The Echo packet: the flag ECHO, and no command (MS-RPCH 2.2.3).
const ECHO_PACKET: [u8; 20] = [
    5, 0, 20, 3, 0x10, 0, 0, 0, 20, 0, 0, 0, 0, 0, 0, 0, 0x40, 0, 0, 0,
];

/// Every packet that waits may go: what is forwarded asks no meter.
struct Unmetered;

impl Gate for Unmetered {
    ghost use Rattle.std.specs.Prelude.{true};

    ghost lets = { λ gate due. true };

    fn may_go(&self, _due: &Due) -> bool {
        true
    }
}

/// Begins a response of success with this Content-Length.
#[tactic(auto, using(crate::proofs::ResponseTexts::response_fits))]
fn begin_response(begun: &mut Begun, length: u32)
    ensures { begun.new ≡ response_text length }
{
    let mut text = [0; RESPONSE_ROOM];
    match write_out_response(length, &mut text) {
        Ok(len) => begun.begin(&text[..len]),
        Err(_) => unreachable!(),
    }
}

/// Writes the Echo packet from this place on.
#[tactic(auto, unfolding(rh_rts::specs::Writing::over))]
fn write_echo_packet(room: &mut [u8; RESPONSE_ROOM], at: usize)
    requires { at + ECHO_LEN ≤ RESPONSE_ROOM }
    ensures { room.new ≡ over room.old at echo_packet }
{
    room[at..at + ECHO_PACKET.len()].copy_from_slice(&ECHO_PACKET);
}

/// Begins the answer to an echo request: a response, and the Echo packet.
fn begin_echo(begun: &mut Begun)
    ensures { begun.new ≡ echo_text }
{
    let mut text = [0; RESPONSE_ROOM];
    match write_echo(&mut text) {
        Ok(len) => {
            write_echo_packet(&mut text, len);
            begun.begin(&text[..len + ECHO_PACKET.len()]);
        }
        Err(_) => unreachable!(),
    }
}

/// Each of these answers whether it put something.
impl OutProxyRole {
    ghost use Rattle.std.specs.Prelude.{◌≡◌, [], is_some};
    ghost use Rattle.rh_shell.specs.Rules.{put_into};
    ghost use Rattle.rh_outproxy.specs.Putting as seen;

    // ---- to the client

    /// The answer to an echo request, or the response and CONN/A3.
    fn put_answer(&mut self, begun: &mut Begun) -> bool
        requires { begun.old ≡ [] }
        ensures put { (self.new, begun.new) ≡ put_into self.old (seen.put_answer self.old) }
        ensures told { result ≡ is_some (seen.put_answer self.old) }
    {
        match self.answer {
            Answer::EchoDue => {
                self.answer = Answer::EchoPut;
                begin_echo(begun);
                true
            }
            Answer::ResponseDue => {
                self.answer = self.behind_response();
                begin_response(begun, self.config.lifetime + PING_ROOM);
                true
            }
            Answer::TimeoutDue => {
                self.answer = Answer::Put;
                begun.begin_packet(&Named::ConnA3(self.config.timeout));
                true
            }
            Answer::Awaited | Answer::EchoPut | Answer::EchoDrawn | Answer::Put => false,
        }
    }

    /// CONN/A3 goes behind the response, where CONN/A1 came.
    fn behind_response(&self) -> Answer
        ensures { result ≡ seen.behind_response self.now.channel }
    {
        match self.channel {
            Channel::Successor { .. } => Answer::Put,
            Channel::Unknown | Channel::New { .. } | Channel::Joined { .. } => Answer::TimeoutDue,
        }
    }

    /// A packet that waits.
    fn put_waiting(&mut self, begun: &mut Begun) -> bool
        requires { begun.old ≡ [] }
        ensures put { (self.new, begun.new) ≡ put_into self.old (seen.put_waiting self.old) }
        ensures told { result ≡ is_some (seen.put_waiting self.old) }
    {
        let Some(due) = self.waiting.take(&Unmetered) else {
            return false;
        };
        begun.begin_packet(&due.packet);
        true
    }

    /// The first PDU that is held, where the client's window allows it.
    fn put_pdu(&mut self, begun: &mut Begun) -> bool
        requires { begun.old ≡ [] }
        ensures put { (self.new, begun.new) ≡ put_into self.old (seen.put_pdu self.old) }
        ensures told { result ≡ is_some (seen.put_pdu self.old) }
    {
        let Some(len) = self.line.front() else {
            return false;
        };
        if !self.window.may_send(len) {
            return false;
        }
        self.window.sent(len);
        begun.begin_taken(&mut self.line);
        true
    }

    /// END/B2, where no PDU is held.
    fn put_end(&mut self, begun: &mut Begun) -> bool
        requires { begun.old ≡ [] }
        ensures put { (self.new, begun.new) ≡ put_into self.old (seen.put_end self.old) }
        ensures told { result ≡ is_some (seen.put_end self.old) }
    {
        if !self.is_empty() || !self.end.is_due() {
            return false;
        }
        self.end = Mark::Put;
        begun.begin_packet(&Named::EndB2);
        true
    }

    /// OUT_R1/A10, where no PDU is held: both legs are finished.
    fn put_handover(&mut self, begun: &mut Begun) -> bool
        requires { begun.old ≡ [] }
        ensures put { (self.new, begun.new) ≡ put_into self.old (seen.put_handover self.old) }
        ensures told { result ≡ is_some (seen.put_handover self.old) }
    {
        if !self.is_empty() || !self.handover.is_due() {
            return false;
        }
        self.handover = Mark::Put;
        begun.begin_packet(&Named::OutR1A10);
        true
    }

    /// END/B2, and then OUT_R1/A10.
    fn put_mark(&mut self, begun: &mut Begun) -> bool
        requires { begun.old ≡ [] }
        ensures put { (self.new, begun.new) ≡ put_into self.old (seen.put_mark self.old) }
        ensures told { result ≡ is_some (seen.put_mark self.old) }
    {
        self.put_end(begun) || self.put_handover(begun)
    }

    /// A Ping, within the bytes above the lifetime.
    fn put_ping(&mut self, begun: &mut Begun) -> bool
        requires { begun.old ≡ [] }
        ensures put { (self.new, begun.new) ≡ put_into self.old (seen.put_ping self.old) }
        ensures told { result ≡ is_some (seen.put_ping self.old) }
    {
        if self.ping != Ping::Due || self.pinged + u32::from(PING_LEN) > PING_ROOM {
            return false;
        }
        self.ping = Ping::NotDue;
        self.pinged += u32::from(PING_LEN);
        begun.begin_packet(&Named::Ping);
        true
    }

    /// The next message to the client, in the order in which they go.
    fn put_co(&mut self, begun: &mut Begun) -> bool
        requires { begun.old ≡ [] }
        ensures put { (self.new, begun.new) ≡ put_into self.old (seen.next_co self.old) }
        ensures told { result ≡ is_some (seen.next_co self.old) }
    {
        self.put_answer(begun)
            || self.put_waiting(begun)
            || self.put_pdu(begun)
            || self.put_mark(begun)
            || self.put_ping(begun)
    }

    // ---- to the server

    /// CONN/A2 or OUT_R1/A4.
    fn put_first(&mut self, begun: &mut Begun) -> bool
        requires { begun.old ≡ [] }
        ensures put { (self.new, begun.new) ≡ put_into self.old (seen.put_first self.old) }
        ensures told { result ≡ is_some (seen.put_first self.old) }
    {
        if self.server != ServerLeg::FirstDue {
            return false;
        }
        let Some(packet) = self.first_packet() else {
            return false;
        };
        self.server = ServerLeg::Up;
        begun.begin_packet(&packet);
        true
    }

    /// An acknowledgement that is due; none is where END or OUT_R1/A9 came.
    fn put_ack(&mut self, begun: &mut Begun) -> bool
        requires { begun.old ≡ [] }
        ensures put { (self.new, begun.new) ≡ put_into self.old (seen.put_ack self.old) }
        ensures told { result ≡ is_some (seen.put_ack self.old) }
    {
        let Some(cookie) = self.joined() else {
            return false;
        };
        if self.end.has_come() || self.handover.has_come() {
            return false;
        }
        let Some(ack) = self.line.due(Which::Current) else {
            return false;
        };
        self.line.told(Which::Current, &ack);
        begun.begin_packet(&Named::Ack(ack.received, ack.available, cookie));
        true
    }

    /// The next message to the server.
    fn put_os(&mut self, begun: &mut Begun) -> bool
        requires { begun.old ≡ [] }
        ensures put { (self.new, begun.new) ≡ put_into self.old (seen.next_os self.old) }
        ensures told { result ≡ is_some (seen.next_os self.old) }
    {
        self.put_first(begun) || self.put_ack(begun)
    }

    // ---- both

    /// The next message of the leg.
    pub(crate) fn put_next(&mut self, leg: Leg, begun: &mut Begun)
        requires { begun.old ≡ [] }
        ensures { (self.new, begun.new) ≡ put_into self.old (seen.put self.old leg) }
    {
        if self.is_co(leg) {
            self.put_co(begun);
        } else if self.is_os(leg) {
            self.put_os(begun);
        }
    }
}
