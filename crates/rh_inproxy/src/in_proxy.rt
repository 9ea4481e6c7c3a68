//! The in proxy of a virtual connection.
//!
//! # The theory of an in proxy
//!
//! An in proxy reads what the client puts on its IN channels (the ci legs) and passes it on to the
//! server on one is leg (MS-RPCH 3.2). Its first ci leg and its is leg open it (`Opening`):
//!
//! * `AwaitsClient`, until the first ci leg is up; `AwaitsPacket`, until CONN/B1 or IN_R1/A1 comes
//!   there. IN_R1/A1 says that another proxy has the channel before this one.
//! * `WantsServer`, until the is leg is up; then the proxy is Open. `Announces`, until CONN/B2 or
//!   IN_R1/A2 is put there, ahead of all else. CONN/B3 or IN_R1/B2 tells the server's window.
//!
//! RPC PDUs that come are held in the list of their channel, and released when they are put. The
//! is leg carries one stream of PDUs; where it ends there stand marks: END/A2 behind END/A1, and
//! IN_R1/A6 behind IN_R1/A5, each behind all PDUs. IN_R1/B1 answers IN_R1/A6, and the work is done.
//!
//! A later ci leg may come up, whose channel goes on over the same is leg (`Successor`):
//!
//! * `Up`, until its IN_R1/A1 comes, which names the channel before it.
//! * `Joined`: its list is opened, and IN_R2/A2 is due (`TellsServer`) until that is put (`Told`).
//!   Then IN_R1/A5 on the ci leg before it means that no more comes there: the channel follows
//!   (`Follows`) once that one's list is empty, and then it is the current one.
//!
//! IN_R1/A5 on the newest ci leg means a successor with an is leg of its own (`Handover`): `Came`,
//! until IN_R1/A6 is put, which makes it `Passed`.
//!
//! A request that asks for an echo is answered on its leg, and then the work is done (`Work`).
//!
//! The table is in `specs/Machine`, a definition for each row in the file of its subject, and what
//! goes next on the is leg in `specs/Putting`.

use crate::state::{InProxyConfig, InProxyRole};
use rh_http::Host;
use rh_line::{Leg, State, Verdict};
use rh_rts::NO_COOKIE;
use rh_shell::{Rooms, Shell};
use std::alloc::{AllocError, Global};
use std::marker::Model;

/// Two ci legs may be unfinished, and one is leg.
pub const ROOMS: Rooms = Rooms {
    client_out: 0,
    out_server: 0,
    client_in: 2,
    in_server: 1,
};

/// An in proxy with its legs.
///
/// Whoever drives it lets its ci legs and its is leg come `up` where they may, feeds what comes by
/// `bytes`, writes what `draw` gives until that is 0, tells by `ended` and `broken` that a leg was
/// lost and by `tick` the moment, and shuts a leg that is `finished`.
///
/// `new` takes all memory that it will use.
#[derive(Drop)]
pub struct InProxy {
    shell: Shell<InProxyRole>,
}

impl Model for InProxy {
    ghost use Rattle.rh_shell.specs.Shells.{Shell as Node};
    ghost use Rattle.rh_inproxy.specs.State.{InProxy as Role};

    ghost Value = { Node Role };

    ghost view = { λ p. p.shell };
}

impl InProxy {
    ghost use Rattle.std.specs.Prelude.{◌≡◌, ◌≤◌, IfOk, length, take, drop};
    ghost use Rattle.rh_shell.specs.Shells as seen;
    ghost use Rattle.rh_inproxy.specs.State.{IsConfig, no_cookie, pair_of};
    ghost use Rattle.rh_inproxy.specs.Machine.{first_node, rules};

    /// An in proxy before its first leg is up. The numbers of its configuration are in range.
    pub fn new(alloc: Global, config: InProxyConfig) -> Result<InProxy, AllocError>
        requires { IsConfig config }
        ensures { IfOk result (λ proxy. proxy ≡ first_node config) }
    {
        let role = InProxyRole::new(alloc, config)?;
        Ok(InProxy {
            shell: Shell::new(alloc, role, ROOMS)?,
        })
    }

    /// Whether the proxy asks for this leg to be connected: the is leg, behind the first packet.
    pub fn wants(&self, leg: Leg) -> bool
        ensures { result ≡ seen.wants rules self.now leg }
    {
        self.shell.wants(leg)
    }

    /// Whether the leg is wanted, or may be accepted: the first ci leg once, and a later one where
    /// it has the number behind the newest one, whose channel is the current one.
    pub fn may_up(&self, leg: Leg) -> bool
        ensures { result ≡ seen.may_up rules self.now leg }
    {
        self.shell.may_up(leg)
    }

    /// The leg is up. Where it may not be up, nothing changes.
    pub fn up(&mut self, leg: Leg)
        ensures { self.new ≡ seen.up rules self.old leg no_cookie }
    {
        self.shell.up(leg, NO_COOKIE);
    }

    /// A piece came on the leg. On a leg that isn't up, or is finished, it is passed over.
    ///
    /// Answers `Closed` with the first cause, exactly where the proxy closed; `Ended` exactly where
    /// its work is done.
    pub fn bytes(&mut self, leg: Leg, piece: &[u8]) -> Verdict
        ensures { (self.new, result) ≡ seen.bytes rules self.old leg piece.now }
    {
        self.shell.bytes(leg, piece)
    }

    /// The other side ended the leg in order. On a leg that is finished nothing changes.
    pub fn ended(&mut self, leg: Leg) -> Verdict
        ensures { (self.new, result) ≡ seen.ended rules self.old leg }
    {
        self.shell.ended(leg)
    }

    /// The leg failed, or the is leg, which is wanted, cannot be connected. On a leg that is
    /// finished nothing changes.
    pub fn broken(&mut self, leg: Leg) -> Verdict
        ensures { (self.new, result) ≡ seen.broken rules self.old leg }
    {
        self.shell.broken(leg)
    }

    /// Puts the next bytes of the leg into the front of the room, and answers how many: as many as
    /// may go, as long as there is room.
    pub fn draw(&mut self, leg: Leg, room: &mut [u8]) -> usize
        ensures drawn { (self.new, take result room.new)
            ≡ seen.drawn rules self.old leg (length room.old) }
        ensures rest { drop result room.new ≡ drop result room.old }
        ensures fits { result ≤ length room.old }
    {
        self.shell.draw(leg, room)
    }

    /// Whether there is no use for the leg any more and nothing is left to draw. False of a leg
    /// that never was up, unless the proxy closed.
    pub fn finished(&self, leg: Leg) -> bool
        ensures { result ≡ seen.finished rules self.now leg }
    {
        self.shell.finished(leg)
    }

    /// The moment, in milliseconds. One below the last moment changes nothing.
    pub fn tick(&mut self, now: u64) -> Verdict
        ensures { (self.new, result) ≡ seen.tick rules self.old now }
    {
        self.shell.tick(now)
    }

    /// The state: a closed one keeps its first cause.
    pub fn state(&self) -> State
        ensures { result ≡ seen.state_of rules self.now }
    {
        self.shell.state()
    }

    /// The host and the port of the server, as the first request for a channel tells them. `None`
    /// exactly where none came.
    pub fn target(&self) -> Option<(Host, u16)>
        ensures { pair_of result ≡ self.now.role.target }
    {
        self.shell.role().server()
    }
}
