//! The server of a virtual connection.
//!
//! # The theory of a server
//!
//! A server listens: it wants no leg, watches none and puts no Pings. A leg may come up whose
//! number is one above the newest of its kind, while fewer than four of that kind are unfinished.
//! On each the greeting goes first.
//!
//! * `Stage`: CONN/A2 on os 1 and CONN/B2 on is 1 come in either order, with one cookie of the
//!   connection. Then the server is open, CONN/B3 goes on is 1 and CONN/C1 on os 1.
//! * What comes is a `RecvLine`: the channel of the current is leg, and that of the next one. What
//!   goes is a queue, and the packets that wait (`OutLine`): all go on the writing channel, but an
//!   AckTo 3 on the leg of its own.
//! * Each OUT channel has a meter. Where that has no room for a packet, the packet is passed by,
//!   and goes later or on the successor; a meter that is used up so far asks for one by itself.
//!
//! A channel is replaced, and a connection ends, in these stages:
//!
//! | stage | what moves it there | what the server holds there, and does |
//! |---|---|---|
//! | **IN, another in proxy** | | |
//! | `InStage::Waits` | IN_R1/A2 comes, first on a leg | its channel: cookie, window, timeout |
//! | `InStage::Opened` | there is no next channel | it is the next one, shut; IN_R1/A3 is due |
//! | `Leaving::InR1B1` | IN_R1/A6 comes on the current leg | no PDU comes there; IN_R1/B1 is due |
//! | `Leaving::Left` | IN_R1/B1 is put | the leg is finished |
//! | `Edge::Shut` | behind A6 the last PDU is taken | the next is current; IN_R1/B2 is due |
//! | `Edge::Told` | IN_R1/B2 is put | it told the window of the current channel |
//! | **IN, the same in proxy** | | |
//! | (one stage) | IN_R2/A2 comes on an open leg | a number more for `channels`; IN_R2/A3 is due |
//! | **OUT** | | |
//! | `Asked` | `recycle_out`, or the meter | OUT_R1/A1 is due |
//! | `Answered` | OUT_R1/A4 comes, first on a leg | its cookie and edge; OUT_R1/A5 is due |
//! | `Confirmed` | OUT_R1/A8 comes | OUT_R1/A9 is due |
//! | `Steady` | OUT_R1/A9 is put | what waits goes on the successor: it is the writing one |
//! | **a clean end** | | |
//! | `Giving::Closing` | `close` | the queue goes, and behind it END/B1 |
//! | `EndMark::Put` | END/B1 is put | an is leg may end behind END/A2; a successor owes it anew |
//! | `ended` of a channel | END/A2 comes on its leg | no PDU comes there |
//! | `Stage::Ended` | END/B1 was put, the last is leg ends | what came can still be taken |
//!
//! Two rules are looked at behind each put and each loss of a leg, and change nothing where they
//! were looked at before: whether the work is done, and whether the meter wishes for a successor.
//! A third one, whether the channel that waits first may be opened, is looked at when one is
//! announced and when one becomes current.

ghost use Rattle.std.specs.Prelude.{◌≡◌, ◌≤◌, IfOk, [], vec_capacity};
ghost use Rattle.rh_window.specs.Sides.{IsWindow};
ghost use Rattle.rh_line.specs.Lines.{first_line};
ghost use Rattle.rh_shell.specs.Waiting.{empty};
ghost use Rattle.rh_server.specs.declared.out_line.TheConstants.{LINE_ROOM};
ghost use Rattle.rh_server.specs.declared.state.TheConstants.{LEGS};

use crate::opening::Row;
use crate::out_line::OutLine;
use crate::state::{
    Edge, EndMark, Giving, InChannel, InLeg, LEGS, Newest, OutLeg, Replacement, ServerRole, Stage,
};
use rh_line::{
    GiveFault, Leg, LegKind, LineTake, RecvLine, RecycleFault, SendLine, State, Take, Verdict,
};
use rh_pdu::header::GREATEST_FRAG;
use rh_rts::{Cookie, NO_COOKIE};
use rh_shell::{
    Begun, Count, EndRole, GiveRefused, HeadRefused, HeadTaken, Phase, RecycleRefused, Refused,
    Role, Rooms, Shell,
};
use rh_sig::{Named, Pipe};
use rh_window::DEFAULT_WINDOW;
use std::alloc::{AllocError, Global};
use std::marker::Model;

/// What a server is made with.
#[derive(Clone, Copy, Debug, PartialEq, Eq)]
pub struct ServerConfig {
    /// The size of the receive window of each IN channel, in bytes: 8,192 to 262,144.
    pub window: u32,
}

impl ServerConfig {
    ghost use Rattle.std.specs.Prelude.{◌≡◌};
    ghost use Rattle.rh_window.specs.Sides.{IsWindow};

    /// With the window that stands where nothing else is said (profile).
    pub fn new() -> ServerConfig
        ensures { (result.window ≡ DEFAULT_WINDOW) × IsWindow result.window }
    {
        ServerConfig {
            window: DEFAULT_WINDOW,
        }
    }
}

/// Four legs of each kind that a server has may be unfinished.
pub const ROOMS: Rooms = Rooms {
    client_out: 0,
    out_server: LEGS,
    client_in: 0,
    in_server: LEGS,
};

/// A server with its legs.
///
/// Whoever drives it lets legs come `up` where they may, feeds what comes by `bytes`, writes what
/// `draw` gives until that is 0, tells by `ended` and `broken` that a leg was lost, tells by `tick`
/// the moment, and shuts a leg that is `finished`. PDUs are given and taken by `give` and `take`,
/// and `close` says that no more will be given.
///
/// `new` takes all memory that it will use.
#[derive(Drop)]
pub struct Server {
    shell: Shell<ServerRole>,
}

impl Model for Server {
    ghost use Rattle.rh_shell.specs.Shells.{Shell as Node};
    ghost use Rattle.rh_server.specs.States as states;

    ghost Value = { Node states.Server };

    ghost view = { λ p. p.shell };
}

impl Server {
    ghost use Rattle.std.specs.Prelude.{◌≡◌, ◌≤◌, IfOk, length, take, drop};
    ghost use Rattle.rh_shell.specs.Ends as ends;
    ghost use Rattle.rh_shell.specs.Shells as seen;
    ghost use Rattle.rh_window.specs.Sides.{IsWindow};
    ghost use Rattle.rh_server.specs.Servers.{new_server, rules, acts};
    ghost use Rattle.rh_server.specs.States.{no_cookie};

    /// A server before its first leg is up.
    ///
    /// Fails only for want of memory.
    pub fn new(alloc: Global, config: ServerConfig) -> Result<Server, AllocError>
        requires { IsWindow config.window }
        ensures { IfOk result (λ server. server ≡ new_server config.window) }
    {
        let role = ServerRole::new(alloc, config.window)?;
        Ok(Server {
            shell: Shell::new(alloc, role, ROOMS)?,
        })
    }

    /// Whether the server asks for this leg to be connected: it never does.
    pub fn wants(&self, leg: Leg) -> bool
        ensures { result ≡ seen.wants rules self.now leg }
    {
        self.shell.wants(leg)
    }

    /// Whether the leg may be accepted: its number is one above the newest of its kind, and fewer
    /// than four of that kind are unfinished.
    pub fn may_up(&self, leg: Leg) -> bool
        ensures { result ≡ seen.may_up rules self.now leg }
    {
        self.shell.may_up(leg)
    }

    /// The leg is up. Where it may not be up, nothing changes.
    pub fn up(&mut self, leg: Leg)
        ensures { self.new ≡ seen.up rules self.old leg no_cookie }
    {
        self.shell.up(leg, NO_COOKIE);
    }

    /// A piece came on the leg. On a leg that isn't up, or is finished, it is passed over.
    ///
    /// Answers `Closed` with the first cause, exactly where the server closed; `Ended` exactly
    /// where its work is done.
    pub fn bytes(&mut self, leg: Leg, piece: &[u8]) -> Verdict
        ensures { (self.new, result) ≡ seen.bytes rules self.old leg piece.now }
    {
        self.shell.bytes(leg, piece)
    }

    /// The other side ended the leg in order. On a leg that is finished nothing changes.
    pub fn ended(&mut self, leg: Leg) -> Verdict
        ensures { (self.new, result) ≡ seen.ended rules self.old leg }
    {
        self.shell.ended(leg)
    }

    /// The leg failed, or could not be connected. On a leg that is finished nothing changes.
    pub fn broken(&mut self, leg: Leg) -> Verdict
        ensures { (self.new, result) ≡ seen.broken rules self.old leg }
    {
        self.shell.broken(leg)
    }

    /// Puts the next bytes of the leg into the front of the room, and answers how many: as many as
    /// may go, as long as there is room.
    pub fn draw(&mut self, leg: Leg, room: &mut [u8]) -> usize
        ensures drawn { (self.new, take result room.new)
            ≡ seen.drawn rules self.old leg (length room.old) }
        ensures rest { drop result room.new ≡ drop result room.old }
        ensures fits { result ≤ length room.old }
    {
        self.shell.draw(leg, room)
    }

    /// Whether there is no use for the leg any more and nothing is left to draw. False of a leg
    /// that never was up, unless the server closed.
    pub fn finished(&self, leg: Leg) -> bool
        ensures { result ≡ seen.finished rules self.now leg }
    {
        self.shell.finished(leg)
    }

    /// The moment, in milliseconds. One below the last moment changes nothing.
    pub fn tick(&mut self, now: u64) -> Verdict
        ensures { (self.new, result) ≡ seen.tick rules self.old now }
    {
        self.shell.tick(now)
    }

    /// The state: a closed one keeps its first cause.
    pub fn state(&self) -> State
        ensures { result ≡ seen.state_of rules self.now }
    {
        self.shell.state()
    }

    /// A PDU is given to the other end.
    ///
    /// Refused with `Closed` exactly where the server closed, with that cause; else with `Closing`
    /// after `close`, `BadPdu` where the bytes are no PDU, `Full` where the queue has no room.
    /// After a refusal nothing has changed.
    pub fn give(&mut self, pdu: &[u8]) -> Result<(), GiveFault>
        ensures { (self.new, result) ≡ ends.give acts self.old pdu.now }
    {
        self.shell.give(pdu)
    }

    /// The next PDU of the other end is taken, where one is there, and put at the front of the
    /// room, which stays behind it.
    ///
    /// Answers `Closed` exactly where the server closed, with that cause; the room then stays.
    pub fn take(&mut self, room: &mut [u8; GREATEST_FRAG]) -> Take
        ensures answer { result ≡ ends.take_answer acts self.old }
        ensures room { room.new ≡ ends.room_after_take acts self.old room.old }
        ensures new { self.new ≡ ends.after_take acts self.old }
    {
        self.shell.take(room)
    }

    /// No PDU will be given any more. Where the server closed, nothing changes.
    pub fn close(&mut self)
        ensures { self.new ≡ ends.close acts self.old }
    {
        self.shell.close();
    }

    /// The writing OUT channel is to be replaced.
    ///
    /// Refused with `NotOpen` exactly where the state isn't Open; else with `Busy` where a
    /// replacement is under way or waits, and with `Last` where the channel has the last number.
    /// After a refusal nothing has changed.
    pub fn recycle_out(&mut self) -> Result<(), RecycleFault>
        ensures { (self.new, result) ≡ ends.recycle acts rules self.old }
    {
        self.shell.recycle()
    }

    /// The numbers of the IN and the OUT channel in use, 1 at first; kept when the server ended or
    /// closed.
    pub fn channels(&self) -> (u32, u32)
        ensures { result ≡ acts.channels self.now.role }
    {
        self.shell.channels()
    }
}

/// What comes, what goes and the packets that wait: nothing yet.
fn first_lines(alloc: Global, window: u32) -> Result<(RecvLine, SendLine, OutLine), AllocError>
    requires { IsWindow window }
    ensures { IfOk result (λ lines. (lines.0 ≡ first_line window)
        × ((lines.1 ≡ []) × (lines.2 ≡ empty LINE_ROOM))) }
{
    Ok((
        RecvLine::new(alloc, window)?,
        SendLine::new(alloc)?,
        OutLine::new(alloc)?,
    ))
}

/// No leg, with room for those of each kind.
fn first_legs(alloc: Global) -> Result<(Vec<InLeg>, Vec<OutLeg>), AllocError>
    ensures ins { IfOk result (λ legs. (legs.0.items ≡ []) × (LEGS ≤ vec_capacity legs.0)) }
    ensures outs { IfOk result (λ legs. (legs.1.items ≡ []) × (LEGS ≤ vec_capacity legs.1)) }
{
    Ok((
        Vec::with_capacity(alloc, usize::from(LEGS))?,
        Vec::with_capacity(alloc, usize::from(LEGS))?,
    ))
}

impl ServerRole {
    ghost use Rattle.std.specs.Prelude.{◌≡◌, IfOk};
    ghost use Rattle.rh_window.specs.Sides.{IsWindow};
    ghost use Rattle.rh_server.specs.Opening.{Done};
    ghost use Rattle.rh_server.specs.Servers as seen;

    /// A server before its first legs are up.
    pub fn new(alloc: Global, window: u32) -> Result<ServerRole, AllocError>
        requires { IsWindow window }
        ensures { IfOk result (λ role. role ≡ seen.first window) }
    {
        let none = InChannel {
            leg: 0,
            number: 0,
            cookie: NO_COOKIE,
        };
        let (line, queue, out_line) = first_lines(alloc, window)?;
        let (ins, outs) = first_legs(alloc)?;
        Ok(ServerRole {
            window,
            stage: Stage::Waits,
            line,
            current: InChannel {
                leg: 1,
                number: 1,
                ..none
            },
            next: none,
            edge: Edge::Told,
            is_left: false,
            newest: Newest {
                leg: 0,
                cookie: NO_COOKIE,
            },
            newest_in: 0,
            ins,
            queue,
            giving: Giving::Going,
            writing: 1,
            end_mark: EndMark::Unput,
            replacement: Replacement::Steady,
            out_line,
            newest_out: 0,
            outs,
        })
    }

    /// The rows of an is leg.
    fn on_is(&mut self, number: u32, count: Count, packet: Named) -> Row
        ensures { (self.new, result) ≡ seen.on_is self.old number count packet }
    {
        match packet {
            Named::ConnB2(_, connection, cookie, window, timeout, ..) => {
                self.on_conn_b2(number, count, connection, cookie, window, timeout)
            }
            Named::InR1A2(_, connection, predecessor, successor, window, timeout) =>
                self.on_in_r1_a2(
                    number,
                    count,
                    connection,
                    predecessor,
                    successor,
                    window,
                    timeout,
                ),
            Named::InR1A6(successor) => self.on_in_r1_a6(number, successor),
            Named::InR2A2(successor) => self.on_in_r2_a2(number, count, successor),
            Named::AckTo(destination, received, window, cookie) => {
                self.on_ack_to(count, destination, received, window, cookie)
            }
            Named::OutR1A8(destination, successor) => {
                self.on_out_r1_a8(count, destination, successor)
            }
            Named::EndA2 => self.on_end_a2(number, count),
            _ => Err(Refused::Unexpected),
        }
    }

    /// The rows of an os leg.
    fn on_os(&mut self, number: u32, count: Count, packet: Named) -> Row
        ensures { (self.new, result) ≡ seen.on_os self.old number count packet }
    {
        match packet {
            Named::ConnA2(_, connection, cookie, lifetime, window) => {
                self.on_conn_a2(number, count, connection, cookie, lifetime, window)
            }
            Named::OutR1A4(_, connection, predecessor, successor, lifetime, window, timeout) => {
                self.on_out_r1_a4(
                    number,
                    count,
                    connection,
                    predecessor,
                    successor,
                    lifetime,
                    window,
                    timeout,
                )
            }
            Named::Ack(received, window, cookie) => {
                self.on_ack(number, count, received, window, cookie)
            }
            Named::PingTraffic(_) => self.on_ping_traffic(count),
            _ => Err(Refused::Unexpected),
        }
    }
}

impl Role for ServerRole {
    ghost use Rattle.rh_server.specs.Servers.{rules as server_rules};

    ghost rules = { server_rules };

    fn phase(&self) -> Phase {
        self.phase_now()
    }

    fn wants(&self, _leg: Leg) -> bool {
        false
    }

    fn may_up(&self, leg: Leg) -> bool {
        self.leg_may_up(leg)
    }

    fn was_up(&self, leg: Leg) -> bool {
        self.leg_was_up(leg)
    }

    fn up(&mut self, leg: Leg, cookie: Cookie) {
        self.leg_up(leg, cookie);
    }

    fn pipe(&self, leg: Leg) -> Option<Pipe> {
        match leg.kind {
            LegKind::InServer => Some(Pipe::IsU),
            LegKind::OutServer => Some(Pipe::OsU),
            LegKind::ClientIn | LegKind::ClientOut => None,
        }
    }

    fn head(&mut self, _leg: Leg, _text: &[u8]) -> Result<HeadTaken, HeadRefused> {
        Err(HeadRefused::Status(0))
    }

    fn pdu(&mut self, leg: Leg, _count: Count, pdu: &[u8]) -> Row {
        match leg.kind {
            LegKind::InServer => self.on_pdu(leg.number, pdu),
            LegKind::OutServer | LegKind::ClientIn | LegKind::ClientOut => {
                Err(Refused::Unexpected)
            }
        }
    }

    fn packet(&mut self, leg: Leg, count: Count, packet: Named) -> Row {
        match leg.kind {
            LegKind::InServer => self.on_is(leg.number, count, packet),
            LegKind::OutServer => self.on_os(leg.number, count, packet),
            LegKind::ClientIn | LegKind::ClientOut => Err(Refused::Unexpected),
        }
    }

    fn is_done(&self, leg: Leg) -> bool {
        self.leg_is_done(leg)
    }

    fn put(&mut self, leg: Leg, begun: &mut Begun) {
        self.put_on(leg, begun);
    }

    fn drawn(&mut self, leg: Leg) {
        self.leg_drawn(leg);
    }

    fn only_marks(&self, leg: Leg) -> bool {
        self.leg_only_marks(leg)
    }

    fn mark(&mut self, leg: Leg) {
        self.leg_mark(leg);
    }

    fn answers_on(&self) -> Option<Leg> {
        None
    }

    fn silence(&self, leg: Leg) -> Option<u32> {
        self.silence_on(leg)
    }

    fn ping_after(&self, leg: Leg) -> Option<u64> {
        self.ping_on(leg)
    }

    fn ping(&mut self, _leg: Leg) {}
}

impl EndRole for ServerRole {
    ghost use Rattle.rh_server.specs.Servers.{acts as server_acts};

    ghost acts = { server_acts };

    fn give(&mut self, pdu: &[u8]) -> Result<(), GiveRefused> {
        self.give_pdu(pdu)
    }

    fn take(&mut self, room: &mut [u8; GREATEST_FRAG]) -> LineTake {
        self.take_pdu(room)
    }

    fn close(&mut self) {
        self.close_now();
    }

    fn recycle(&mut self) -> Result<(), RecycleRefused> {
        self.recycle_out()
    }

    fn channels(&self) -> (u32, u32) {
        (self.current.number, self.writing)
    }
}
