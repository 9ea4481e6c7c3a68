//! An out proxy: the channel on which a client's virtual connection hears its server.
//!
//! # The theory of the out proxy
//!
//! An out proxy stands between a client and a server, with one leg to each. The client asks on its
//! leg for a new channel (CONN/A1) or for a successor of one (OUT_R1/A3); the proxy then wants the
//! server's leg, tells the server of the channel (CONN/A2, OUT_R1/A4), and answers the client with
//! a head (and CONN/A3).
//!
//! | stage | its meaning | what moves it |
//! |---|---|---|
//! | `Channel::Unknown` | the client asked for nothing yet | CONN/A1, OUT_R1/A3 |
//! | `Channel::New` | the server did not answer CONN/A2 | CONN/C1, which goes on as C2 |
//! | `Channel::Joined`, `Channel::Successor` | the channel carries RPC PDUs and packets | |
//! | `ServerLeg::FirstDue` | the first packet to the server is due | it is put |
//! | `Answer::ResponseDue`, `TimeoutDue` | the response and CONN/A3 are due | each is put |
//! | `Answer::EchoDue`, `EchoPut`, `EchoDrawn` | an echo request is answered | it is put, drawn |
//! | `end`: `Came`, `Put` | END/B1 came, END/B2 was put | no PDU is held any more |
//! | `handover`: `Came`, `Put` | OUT_R1/A9 came, A10 was put | the same, and END/B2 before it |
//!
//! Opening is the state until the server's leg is up, and then Open. The proxy is Ended where an
//! echo request was answered, where OUT_R1/A10 was put, and where the server's leg was lost behind
//! END/B2.
//!
//! An RPC PDU from the server is held until the client's window allows it, and is released to the
//! server's own window when it is put. The client's acknowledgements come by way of the server, as
//! AckTo 3; those of other channels, and the packets of replacement, are forwarded to the client.

ghost use Rattle.rh_outproxy.specs.Machine.{rules};
ghost use Rattle.rh_shell.specs.Shells as shells;

use crate::state::{OutProxyConfig, OutProxyRole};
use rh_http::Host;
use rh_line::{Leg, State, Verdict};
use rh_rts::NO_COOKIE;
use rh_shell::{Rooms, Shell};
use std::alloc::{AllocError, Global};
use std::marker::Model;

/// An out proxy with its two legs: the one from its client, and the one to its server. Both have
/// the number of its channel.
///
/// Whoever drives it lets the client's leg come `up`, connects the server's leg when the proxy
/// `wants` it, feeds what comes on a leg by `bytes`, and writes what `draw` gives until that is 0.
/// It tells by `ended` and `broken` that a leg was lost, and by `tick` the moment, and shuts a leg
/// that is `finished`. Only `new` takes memory.
#[derive(Drop)]
pub struct OutProxy {
    shell: Shell<OutProxyRole>,
}

impl Model for OutProxy {
    ghost use Rattle.rh_shell.specs.Shells.{Shell};
    ghost use Rattle.rh_outproxy.specs.OutProxy.{OutProxy as Seen};

    ghost Value = { Shell Seen };

    ghost view = { λ proxy. proxy.shell };
}

/// One leg of each of its two kinds.
pub const ROOMS: Rooms = Rooms {
    client_out: 1,
    out_server: 1,
    client_in: 0,
    in_server: 0,
};

impl OutProxy {
    ghost use Rattle.std.specs.Prelude.{◌≡◌, ◌≤◌, IfOk, length, take, drop};
    ghost use Rattle.rh_sig.specs.Values.{IsLifetime, IsTimeout};
    ghost use Rattle.rh_window.specs.Sides.{IsWindow};
    ghost use Rattle.rh_outproxy.specs.declared.out_proxy.TheConstants.{ROOMS};
    ghost use Rattle.rh_rts.specs.declared.command.TheConstants.{NO_COOKIE};
    ghost use Rattle.rh_outproxy.specs.OutProxy.{new_proxy, server_told, server_of};

    /// An out proxy before its first leg is up.
    ///
    /// Fails only for want of memory.
    pub fn new(alloc: Global, config: OutProxyConfig) -> Result<OutProxy, AllocError>
        requires number { 1 ≤ config.number }
        requires window { IsWindow config.window }
        requires lifetime { IsLifetime config.lifetime }
        requires timeout { IsTimeout config.timeout }
        ensures { IfOk result (λ proxy. proxy ≡ shells.begun (new_proxy config) ROOMS) }
    {
        let role = OutProxyRole::new(alloc, config)?;
        Ok(OutProxy {
            shell: Shell::new(alloc, role, ROOMS)?,
        })
    }

    /// The state: Opening until the server's leg is up. A closed one keeps its first cause.
    pub fn state(&self) -> State
        ensures { result ≡ shells.state_of rules self.now }
    {
        self.shell.state()
    }

    /// The host and port of the server that the client asked for. `None` exactly where no request
    /// was taken, or an echo request.
    pub fn target(&self) -> Option<(Host, u16)>
        ensures { server_told result ≡ server_of self.now.role.request }
    {
        self.shell.role().target()
    }

    /// Whether the proxy asks for this leg to be connected: the server's, once it knows what for.
    pub fn wants(&self, leg: Leg) -> bool
        ensures { result ≡ shells.wants rules self.now leg }
    {
        self.shell.wants(leg)
    }

    /// Whether the leg is wanted, or is the client's, which may be accepted once.
    pub fn may_up(&self, leg: Leg) -> bool
        ensures { result ≡ shells.may_up rules self.now leg }
    {
        self.shell.may_up(leg)
    }

    /// The leg is up. Where it may not be up, nothing changes.
    pub fn up(&mut self, leg: Leg)
        ensures { self.new ≡ shells.up rules self.old leg NO_COOKIE }
    {
        self.shell.up(leg, NO_COOKIE);
    }

    /// A piece came on the leg. On a leg that is not up, or is finished, it is passed over.
    pub fn bytes(&mut self, leg: Leg, piece: &[u8]) -> Verdict
        ensures { (self.new, result) ≡ shells.bytes rules self.old leg piece.now }
    {
        self.shell.bytes(leg, piece)
    }

    /// The other side ended the leg in order. On a leg that is finished nothing changes.
    pub fn ended(&mut self, leg: Leg) -> Verdict
        ensures { (self.new, result) ≡ shells.ended rules self.old leg }
    {
        self.shell.ended(leg)
    }

    /// The leg failed, or the wanted one cannot be connected. On a leg that is finished nothing
    /// changes.
    pub fn broken(&mut self, leg: Leg) -> Verdict
        ensures { (self.new, result) ≡ shells.broken rules self.old leg }
    {
        self.shell.broken(leg)
    }

    /// Puts the next bytes of the leg into the front of the room, and answers how many. The rest of
    /// the room stays.
    pub fn draw(&mut self, leg: Leg, room: &mut [u8]) -> usize
        ensures drawn { (self.new, take result room.new)
            ≡ shells.drawn rules self.old leg (length room.old) }
        ensures rest { drop result room.new ≡ drop result room.old }
        ensures fits { result ≤ length room.old }
    {
        self.shell.draw(leg, room)
    }

    /// Whether there is no use for the leg any more and nothing is left to draw. False of a leg
    /// that never was up, unless the proxy closed.
    pub fn finished(&self, leg: Leg) -> bool
        ensures { result ≡ shells.finished rules self.now leg }
    {
        self.shell.finished(leg)
    }

    /// The moment, in milliseconds. One below the last moment changes nothing.
    pub fn tick(&mut self, now: u64) -> Verdict
        ensures { (self.new, result) ≡ shells.tick rules self.old now }
    {
        self.shell.tick(now)
    }
}
