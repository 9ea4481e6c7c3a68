//! The client of a virtual connection (MS-RPCH 3.2.2).
//!
//! # The theory of the client
//!
//! It is Opening until CONN/C2 came on co1 behind CONN/A3; then Open; and Ended where `close` was
//! called, END/A1 was put on the writing IN channel, END/B2 came on the current OUT channel, and no
//! replacement is under way.
//!
//! * A leg is not up, until the node connects it; then its request goes, then its first packets:
//!   CONN/A1 on co1 and CONN/B1 on ci1; of a successor IN_R1/A1, or OUT_R1/A3 and OUT_R2/C1
//!   (`Opening`).
//! * At most one channel is replaced at a time (`Replacement`), and what is wanted meanwhile waits,
//!   in the order in which it was wanted. So at most one packet of a replacement is due at any
//!   time, and no list of packets is kept.
//! * RPC PDUs, END/A1, acknowledgements and the packets of a replacement go on the writing channel,
//!   within its window and its lifetime. A leg that ends or breaks before the client is Ended, and
//!   that is still of use, closes it.
//!
//! # The stages of a replacement
//!
//! What each role holds once the packet came there or was put; an empty cell is as before. Who
//! forwards a packet puts it under its next name.
//!
//! The IN channel, whose successor goes over another in proxy (`InStage`):
//!
//! | moved by | client | in proxies | out proxy | server |
//! |---|---|---|---|---|
//! | none: `recycle`, the meter | `Asked`: a leg is wanted | | | |
//! | IN_R1/A1 | `Put` on that leg | new: `WantsServer` | | |
//! | IN_R1/A2 | | new: `Announced` | | `Waits`, then `Opened`: A3 is due |
//! | IN_R1/A3, A4 | `Answered`: A5 is due | | forwards | |
//! | IN_R1/A5 | writes on the successor | old: `Came`: A6 behind PDUs, END | | |
//! | IN_R1/A6 | | old: `Passed` | | old leg: B1 is due |
//! | IN_R1/B1 | | old: `Done` | | old leg: `Left` |
//! | IN_R1/B2 | | new: `Known` window | | `Told`: the successor is current |
//!
//! The same, over the same in proxy, which has one leg to the server for both channels:
//!
//! | moved by | client | in proxy | out proxy | server |
//! |---|---|---|---|---|
//! | none: `recycle`, the meter | `Asked`: a leg is wanted | | | |
//! | IN_R1/A1 | `Put` on that leg | `Joined`, `TellsServer` | | |
//! | IN_R2/A2 | | `Told` | | the leg's next number |
//! | IN_R2/A3, A4 | `Answered`: A5 is due | | forwards | |
//! | IN_R1/A5 | writes on the successor | `Follows`; current behind the PDUs held | | |
//!
//! The OUT channel (`OutStage`):
//!
//! | moved by | client | in proxy | out proxies | server |
//! |---|---|---|---|---|
//! | OUT_R1/A1, A2 | `Asked`: a leg is wanted | | old: forwards | `Asked` |
//! | OUT_R1/A3, OUT_R2/C1 | `Put` on that leg | | new: `Successor` | |
//! | OUT_R1/A4 | | | new: server's leg `Up` | `Answered`: A5 is due |
//! | OUT_R1/A5, A6 | `Answered`: A7 is due | | old: forwards | |
//! | OUT_R1/A7, A8 | `Switched`: PDUs come on both | forwards | | `Confirmed`: A9 is due |
//! | OUT_R1/A9 | | | old: `Came`: A10 behind PDUs, END | writes on the successor |
//! | OUT_R1/A10 | `Finished` until its PDUs are taken | | old: `Put`, Ended | |
//!
//! The clean end, one direction as the other; END is put again on a successor:
//!
//! | moved by | client | in proxy | out proxy | server |
//! |---|---|---|---|---|
//! | none: `close` | `is_closing`: END behind the queue | | | the same: `Closing` |
//! | END/A1 | `is_end_put` | `ended`: A2 behind PDUs | | |
//! | END/A2 | | `end_put` | | `ended` |
//! | END/B1 | | | `Came`: B2 behind PDUs | `end_mark`: `Put` |
//! | END/B2 | `ended`; Ended once END/A1 was put | | `Put` | |
//! | none: the legs end | | `Done` | `Marked`: Ended | `Ended` |
//!
//! Order is kept whatever the peers put (`order.rt`).

use crate::opening::{head_by, pipe_by};
use crate::state::ClientRole;
use rh_http::ClientConfig;
use rh_line::{GiveFault, Leg, LegKind, LineTake, RecycleFault, State, Take, Verdict};
use rh_pdu::header::GREATEST_FRAG;
use rh_rts::Cookie;
use rh_shell::{
    Begun, Count, EndRole, GiveRefused, HeadRefused, HeadTaken, Phase, RecycleRefused, Refused,
    Role, Rooms, Shell,
};
use rh_sig::{Named, Pipe};
use std::alloc::{AllocError, Global};
use std::marker::Model;

/// A channel and its successor may be unfinished in each direction.
pub const ROOMS: Rooms = Rooms {
    client_out: 2,
    out_server: 0,
    client_in: 2,
    in_server: 0,
};

/// A client with its legs.
///
/// Whoever drives it connects each leg that it `wants` and lets that come `up` under a cookie of
/// its own, feeds what comes by `bytes`, writes what `draw` gives until that is 0, tells by `ended`
/// and `broken` that a leg was lost and by `tick` the moment, and shuts a leg that is `finished`.
/// PDUs are given and taken by `give` and `take`, and `close` says that no more will be given.
///
/// `new` takes all memory that it will use.
#[derive(Drop)]
pub struct Client {
    shell: Shell<ClientRole>,
}

impl Model for Client {
    ghost use Rattle.rh_shell.specs.Shells.{Shell as Node};
    ghost use Rattle.rh_client.specs.declared.state.ClientRole.{ClientRole};

    ghost Value = { Node ClientRole };

    ghost view = { λ p. p.shell };
}

impl Client {
    ghost use Rattle.std.specs.Prelude.{◌≡◌, ◌≤◌, IfOk, length, take, drop};
    ghost use Rattle.rh_shell.specs.Ends as ends;
    ghost use Rattle.rh_shell.specs.Shells as seen;
    ghost use Rattle.rh_window.specs.Sides.{IsWindow};
    ghost use Rattle.rh_client.specs.Client.{first_client, rules, acts};

    /// A client before its first leg is up.
    ///
    /// Fails only for want of memory.
    pub fn new(alloc: Global, config: ClientConfig) -> Result<Client, AllocError>
        requires { IsWindow config.window }
        ensures { IfOk result (λ client. client ≡ first_client config) }
    {
        let role = ClientRole::new(alloc, config)?;
        Ok(Client {
            shell: Shell::new(alloc, role, ROOMS)?,
        })
    }

    /// Whether the client asks for this leg to be connected: the first of each kind, and those of
    /// successors in their turn.
    pub fn wants(&self, leg: Leg) -> bool
        ensures { result ≡ seen.wants rules self.now leg }
    {
        self.shell.wants(leg)
    }

    /// Whether the leg is wanted: a client accepts no other.
    pub fn may_up(&self, leg: Leg) -> bool
        ensures { result ≡ seen.may_up rules self.now leg }
    {
        self.shell.may_up(leg)
    }

    /// The leg is up; the cookie names its channel. Where it may not be up, nothing changes.
    pub fn up(&mut self, leg: Leg, cookie: Cookie)
        ensures { self.new ≡ seen.up rules self.old leg cookie }
    {
        self.shell.up(leg, cookie);
    }

    /// A piece came on the leg. On a leg that isn't up, or is finished, it is passed over.
    ///
    /// Answers `Closed` with the first cause, exactly where the client closed; `Ended` exactly
    /// where its work is done.
    pub fn bytes(&mut self, leg: Leg, piece: &[u8]) -> Verdict
        ensures { (self.new, result) ≡ seen.bytes rules self.old leg piece.now }
    {
        self.shell.bytes(leg, piece)
    }

    /// The other side ended the leg in order. On a leg that is finished nothing changes.
    pub fn ended(&mut self, leg: Leg) -> Verdict
        ensures { (self.new, result) ≡ seen.ended rules self.old leg }
    {
        self.shell.ended(leg)
    }

    /// The leg failed, or could not be connected. On a leg that is finished nothing changes.
    pub fn broken(&mut self, leg: Leg) -> Verdict
        ensures { (self.new, result) ≡ seen.broken rules self.old leg }
    {
        self.shell.broken(leg)
    }

    /// Puts the next bytes of the leg into the front of the room, and answers how many: as many as
    /// may go, as long as there is room.
    pub fn draw(&mut self, leg: Leg, room: &mut [u8]) -> usize
        ensures drawn { (self.new, take result room.new)
            ≡ seen.drawn rules self.old leg (length room.old) }
        ensures rest { drop result room.new ≡ drop result room.old }
        ensures fits { result ≤ length room.old }
    {
        self.shell.draw(leg, room)
    }

    /// Whether there is no use for the leg any more and nothing is left to draw. False of a leg
    /// that never was up, unless the client closed.
    pub fn finished(&self, leg: Leg) -> bool
        ensures { result ≡ seen.finished rules self.now leg }
    {
        self.shell.finished(leg)
    }

    /// The moment, in milliseconds. One below the last moment changes nothing.
    pub fn tick(&mut self, now: u64) -> Verdict
        ensures { (self.new, result) ≡ seen.tick rules self.old now }
    {
        self.shell.tick(now)
    }

    /// The state: a closed one keeps its first cause.
    pub fn state(&self) -> State
        ensures { result ≡ seen.state_of rules self.now }
    {
        self.shell.state()
    }

    /// A PDU is given to the other end.
    ///
    /// Refused with `Closed` exactly where the client closed, with that cause; else with `Closing`
    /// after `close`, `BadPdu` where the bytes are no PDU, `Full` where the queue has no room.
    /// After a refusal nothing has changed.
    pub fn give(&mut self, pdu: &[u8]) -> Result<(), GiveFault>
        ensures { (self.new, result) ≡ ends.give acts self.old pdu.now }
    {
        self.shell.give(pdu)
    }

    /// The next PDU of the other end is taken, where one is there, and put at the front of the
    /// room, which stays behind it.
    ///
    /// Answers `Closed` exactly where the client closed, with that cause; the room then stays.
    pub fn take(&mut self, room: &mut [u8; GREATEST_FRAG]) -> Take
        ensures answer { result ≡ ends.take_answer acts self.old }
        ensures room { room.new ≡ ends.room_after_take acts self.old room.old }
        ensures new { self.new ≡ ends.after_take acts self.old }
    {
        self.shell.take(room)
    }

    /// No PDU will be given any more. Where the client closed, nothing changes.
    pub fn close(&mut self)
        ensures { self.new ≡ ends.close acts self.old }
    {
        self.shell.close();
    }

    /// The writing IN channel is to be replaced.
    ///
    /// Refused with `NotOpen` exactly where the state isn't Open; else with `Busy` where a
    /// replacement is under way or waits, and with `Last` where the channel has the last number.
    /// After a refusal nothing has changed.
    pub fn recycle_in(&mut self) -> Result<(), RecycleFault>
        ensures { (self.new, result) ≡ ends.recycle acts rules self.old }
    {
        self.shell.recycle()
    }

    /// The numbers of the IN and the OUT channel in use, 1 at first; kept when the client ended or
    /// closed.
    pub fn channels(&self) -> (u32, u32)
        ensures { result ≡ acts.channels self.now.role }
    {
        self.shell.channels()
    }
}

impl ClientRole {
    ghost use Rattle.std.specs.Prelude.{◌≡◌};
    ghost use Rattle.rh_client.specs.Client as seen;

    /// The rows of the client's table, by packet.
    fn on_packet(&mut self, number: u32, count: Count, packet: Named) -> Result<(), Refused>
        ensures { (self.new, result) ≡ seen.on_packet self.old number count packet }
    {
        match packet {
            Named::ConnA3(timeout) => self.on_conn_a3(number, count, timeout),
            Named::ConnC2(_, window, timeout) => self.on_conn_c2(number, window, timeout),
            Named::AckTo(to, received, available, of) => {
                self.on_ack_to(to, received, available, of)
            }
            Named::InR1A4(to, _, window, timeout) => self.on_in_r1_a4(to, window, timeout),
            Named::InR2A4(to) => self.on_in_r2_a4(to),
            Named::OutR1A2(to) => self.on_out_r1_a2(number, to),
            Named::OutR1A6(to, _, timeout) => self.on_out_r1_a6(number, to, timeout),
            Named::OutR1A10 => self.on_out_r1_a10(number),
            Named::EndB2 => self.on_end_b2(number),
            _ => Err(Refused::Unexpected),
        }
    }

    /// A packet on the leg of an OUT channel.
    fn packet_on(&mut self, number: u32, count: Count, packet: Named) -> Result<(), Refused>
        ensures { (self.new, result) ≡ seen.packet_on self.old number count packet }
    {
        if self.is_current(number) || self.is_out_successor(number) {
            self.on_packet(number, count, packet)
        } else {
            Err(Refused::Unexpected)
        }
    }
}

impl Role for ClientRole {
    ghost use Rattle.rh_client.specs.Client.{rules as client_rules};

    ghost rules = { client_rules };

    fn phase(&self) -> Phase {
        self.phase
    }

    fn wants(&self, leg: Leg) -> bool {
        self.wants_by(leg.number, leg.kind)
    }

    fn may_up(&self, leg: Leg) -> bool {
        self.wants_by(leg.number, leg.kind)
    }

    fn was_up(&self, leg: Leg) -> bool {
        self.was_up_by(leg.number, leg.kind)
    }

    fn up(&mut self, leg: Leg, cookie: Cookie) {
        self.up_by(leg.number, cookie, leg.kind);
    }

    fn pipe(&self, leg: Leg) -> Option<Pipe> {
        pipe_by(leg.kind)
    }

    fn head(&mut self, leg: Leg, text: &[u8]) -> Result<HeadTaken, HeadRefused> {
        head_by(leg.kind, text)
    }

    fn pdu(&mut self, leg: Leg, _count: Count, pdu: &[u8]) -> Result<(), Refused> {
        match leg.kind {
            LegKind::ClientOut => self.on_pdu(leg.number, pdu),
            LegKind::OutServer | LegKind::ClientIn | LegKind::InServer => {
                Err(Refused::Unexpected)
            }
        }
    }

    fn packet(&mut self, leg: Leg, count: Count, packet: Named) -> Result<(), Refused> {
        match leg.kind {
            LegKind::ClientOut => self.packet_on(leg.number, count, packet),
            LegKind::OutServer | LegKind::ClientIn | LegKind::InServer => {
                Err(Refused::Unexpected)
            }
        }
    }

    fn is_done(&self, leg: Leg) -> bool {
        self.is_done_by(leg.number, leg.kind)
    }

    fn put(&mut self, leg: Leg, begun: &mut Begun) {
        self.put_on(leg.number, leg.kind, begun);
    }

    fn drawn(&mut self, leg: Leg) {
        self.drawn_by(leg.number, leg.kind);
    }

    fn only_marks(&self, _leg: Leg) -> bool {
        false
    }

    fn mark(&mut self, _leg: Leg) {}

    fn answers_on(&self) -> Option<Leg> {
        None
    }

    fn silence(&self, leg: Leg) -> Option<u32> {
        self.silence_by(leg.number, leg.kind)
    }

    fn ping_after(&self, leg: Leg) -> Option<u64> {
        self.ping_after_by(leg.number, leg.kind)
    }

    fn ping(&mut self, leg: Leg) {
        self.ping_by(leg.number, leg.kind);
    }
}

impl EndRole for ClientRole {
    ghost use Rattle.rh_client.specs.Client.{acts as client_acts};

    ghost acts = { client_acts };

    fn give(&mut self, pdu: &[u8]) -> Result<(), GiveRefused> {
        self.give_pdu(pdu)
    }

    fn take(&mut self, room: &mut [u8; GREATEST_FRAG]) -> LineTake {
        self.take_pdu(room)
    }

    fn close(&mut self) {
        self.is_closing = true;
    }

    fn recycle(&mut self) -> Result<(), RecycleRefused> {
        self.want_successor()
    }

    fn channels(&self) -> (u32, u32) {
        (self.writing.number, self.current.number)
    }
}
