//! What an in proxy keeps.

ghost use Rattle.std.specs.Prelude.{◌≡◌};
ghost use Rattle.rh_inproxy.specs.State.{same_cookie, is_client_leg, follows};

use rh_http::Host;
use rh_line::{Leg, LegKind, RecvLine, Which};
use rh_rts::{Cookie, NO_COOKIE};
use rh_shell::{FORWARDED_ROOM, Waiting};
use rh_sig::ranges::DEFAULT_TIMEOUT;
use rh_window::{DEFAULT_WINDOW, SendWindow};
use std::alloc::{AllocError, Global};
use std::marker::Model;

/// What an in proxy is made with.
#[derive(Clone, Copy, Debug, PartialEq, Eq)]
pub struct InProxyConfig {
    /// The number of its first channel, from 1.
    pub number: u32,
    /// The size of each channel's window, in bytes: 8,192 to 262,144.
    pub window: u32,
    /// How long a ci leg may be silent, in milliseconds: 120,000 to 14,400,000.
    pub timeout: u32,
    /// The address of the client.
    pub address: [u8; 4],
}

impl InProxyConfig {
    ghost use Rattle.std.specs.Prelude.{◌≡◌, ◌≤◌};
    ghost use Rattle.rh_inproxy.specs.State.{IsConfig};

    /// That of the channel `number` and of a client there, with the window and the timeout that
    /// stand where nothing else is said (profile).
    pub fn new(number: u32, address: [u8; 4]) -> InProxyConfig
        requires { 1 ≤ number }
        ensures number { result.number ≡ number }
        ensures address { result.address ≡ address }
        ensures window { result.window ≡ DEFAULT_WINDOW }
        ensures timeout { result.timeout ≡ DEFAULT_TIMEOUT }
        ensures in_range { IsConfig result }
    {
        InProxyConfig {
            number,
            window: DEFAULT_WINDOW,
            timeout: DEFAULT_TIMEOUT,
            address,
        }
    }
}

/// The server that the first request names.
#[derive(Clone, Copy)]
pub struct Target {
    pub host: Host,
    pub port: u16,
}

/// The first packet on the first ci leg.
#[derive(Clone, Copy)]
pub enum Entry {
    /// CONN/B1 (MS-RPCH 3.2), with the association group.
    Connects { group: Cookie },
    /// IN_R1/A1, with the channel before it, which another proxy has.
    Replaces { predecessor: Cookie },
}

/// What the first packet on the first ci leg tells.
#[derive(Clone, Copy)]
pub struct Opener {
    pub connection: Cookie,
    /// The channel with which the is leg is opened.
    pub channel: Cookie,
    pub entry: Entry,
}

/// How far the first legs are.
#[derive(Clone, Copy)]
pub enum Opening {
    /// No leg was up.
    AwaitsClient,
    /// The first ci leg is up, and its first packet has not come.
    AwaitsPacket,
    /// The is leg is wanted.
    WantsServer(Opener),
    /// The is leg is up, and CONN/B2 or IN_R1/A2 goes first there.
    Announces(Opener),
    /// That was put.
    Announced(Opener),
}

/// Whether the proxy has work.
#[derive(Clone, Copy)]
pub enum Work {
    Underway,
    /// An echo request came on the ci leg of this number, and its answer is due.
    EchoDue(u32),
    /// The answer was put.
    EchoPut(u32),
    /// The work is done.
    Done,
}

/// A ci leg, and the cookie of its channel once its first packet came.
#[derive(Clone, Copy)]
pub struct ClientLeg {
    pub number: u32,
    pub cookie: Cookie,
}

/// How far a channel is that is to follow the current one.
#[derive(Clone, Copy)]
pub enum Joining {
    /// IN_R2/A2 is due, behind so many of the packets that wait.
    TellsServer { behind: usize },
    /// IN_R2/A2 was put.
    Told,
    /// IN_R1/A5 came on the current ci leg: the channel follows when that one's list is empty.
    Follows,
}

/// The ci leg behind that of the current channel.
#[derive(Clone, Copy)]
pub enum Successor {
    /// There is none.
    Absent,
    /// The leg of this number is up, and its first packet has not come.
    Up(u32),
    /// IN_R1/A1 came.
    Joined(ClientLeg, Joining),
}

/// IN_R1/A5 on the newest ci leg, and IN_R1/A6 with its cookie.
#[derive(Clone, Copy)]
pub enum Handover {
    /// IN_R1/A5 did not come.
    Before,
    /// IN_R1/A6 is due behind the PDUs and END.
    Came(Cookie),
    /// IN_R1/A6 was put.
    Passed,
}

/// Whether the server told its window.
#[derive(Clone, Copy)]
pub enum Edge {
    Unknown,
    Known,
}

/// The state of an in proxy, without the bytes of its legs.
#[derive(Drop)]
pub struct InProxyRole {
    pub(crate) config: InProxyConfig,
    pub(crate) target: Option<Target>,
    pub(crate) opening: Opening,
    pub(crate) work: Work,
    pub(crate) keepalive: u32,
    pub(crate) lengths: u64,
    pub(crate) line: RecvLine,
    pub(crate) current: ClientLeg,
    pub(crate) successor: Successor,
    pub(crate) handover: Handover,
    pub(crate) newest_lost: bool,
    pub(crate) waiting: Waiting,
    pub(crate) window: SendWindow,
    pub(crate) edge: Edge,
    pub(crate) end_put: bool,
    pub(crate) ping_due: bool,
}

impl Model for InProxyRole {
    ghost use Rattle.std.specs.Prelude.{◌≡◌};
    ghost use Rattle.rh_inproxy.specs.State as seen;

    ghost Value = { seen.InProxy };

    ghost view = { λ s. record {
      config = s.config;
      target = seen.target_of s.target;
      opening = s.opening;
      work = s.work;
      keepalive = s.keepalive;
      lengths = s.lengths;
      line = s.line;
      current = s.current;
      successor = s.successor;
      handover = s.handover;
      newest_lost = s.newest_lost;
      waiting = s.waiting;
      window = s.window;
      edge = s.edge;
      end_put = s.end_put;
      ping_due = s.ping_due;
    } };

    ghost invariant = { λ s. s.line.has_next ≡ seen.is_joined s.successor };
}

/// Whether two cookies are the same.
pub(crate) fn same_cookie(a: &Cookie, b: &Cookie) -> bool
    ensures { result ≡ same_cookie a.now b.now }
{
    a.0.as_slice() == b.0.as_slice()
}

/// Whether the leg is one between client and in proxy.
pub(crate) fn is_client_leg(leg: Leg) -> bool
    ensures { result ≡ is_client_leg leg }
{
    matches!(leg.kind, LegKind::ClientIn)
}

/// Where the line has moved on, the ci leg behind is the current one.
pub(crate) fn follow(has_next: bool, current: &mut ClientLeg, successor: &mut Successor)
    ensures { (current.new, successor.new) ≡ follows has_next current.old successor.old }
{
    if let Successor::Joined(leg, _) = *successor {
        if !has_next {
            *current = leg;
            *successor = Successor::Absent;
        }
    }
}

impl InProxyRole {
    ghost use Rattle.std.specs.Prelude.{◌≡◌, IfOk, IfSome, true};
    ghost use Rattle.rh_line.specs.Lines.{IsThere};
    ghost use Rattle.rh_inproxy.specs.State.{IsConfig, first, is_server_leg, channel_of, has_opened};
    ghost use Rattle.rh_inproxy.specs.State.{has_a5};

    /// The role before its first leg is up. No other call takes memory.
    ///
    /// Fails only for want of memory.
    pub fn new(alloc: Global, config: InProxyConfig) -> Result<InProxyRole, AllocError>
        requires { IsConfig config }
        ensures { IfOk result (λ role. role ≡ first config) }
    {
        Ok(InProxyRole {
            config,
            target: None,
            opening: Opening::AwaitsClient,
            work: Work::Underway,
            keepalive: 0,
            lengths: 0,
            line: RecvLine::new(alloc, config.window)?,
            current: ClientLeg {
                number: config.number,
                cookie: NO_COOKIE,
            },
            successor: Successor::Absent,
            handover: Handover::Before,
            newest_lost: false,
            waiting: Waiting::new(alloc, FORWARDED_ROOM)?,
            window: SendWindow::new(0),
            edge: Edge::Unknown,
            end_put: false,
            ping_due: false,
        })
    }

    /// Whether this is the leg to the server.
    pub(crate) fn is_server_leg(&self, leg: Leg) -> bool
        ensures { result ≡ is_server_leg self.now leg }
    {
        matches!(leg.kind, LegKind::InServer) && leg.number == self.config.number
    }

    /// Whether the first packet on the first ci leg came.
    pub(crate) fn has_opened(&self) -> bool
        ensures { result ≡ has_opened self.now.opening }
    {
        !matches!(self.opening, Opening::AwaitsClient | Opening::AwaitsPacket)
    }

    /// The channel of the ci leg of this number, where its first packet came.
    pub(crate) fn channel_of(&self, number: u32) -> Option<Which>
        ensures channel { result ≡ channel_of self.now number }
        ensures there { IfSome result (λ which. IsThere self.now.line which) }
    {
        if self.has_opened() && self.current.number == number {
            return Some(Which::Current);
        }
        match self.successor {
            Successor::Joined(leg, _) if leg.number == number => Some(Which::Next),
            _ => None,
        }
    }

    /// Whether IN_R1/A5 came on the ci leg of the channel.
    pub(crate) fn has_a5(&self, which: Which) -> bool
        ensures { result ≡ has_a5 self.now which }
    {
        match (which, self.successor) {
            (Which::Current, Successor::Joined(_, stage)) => matches!(stage, Joining::Follows),
            _ => !matches!(self.handover, Handover::Before),
        }
    }
}
