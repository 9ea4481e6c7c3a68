//! What an out proxy keeps, without the bytes of its legs.

use rh_http::{Host, Request};
use rh_keep::DEFAULT_LIFETIME;
use rh_line::{Leg, LegKind, RecvLine, Which};
use rh_rts::Cookie;
use rh_shell::{FORWARDED_ROOM, Phase, Waiting};
use rh_sig::ranges::DEFAULT_TIMEOUT;
use rh_window::{DEFAULT_WINDOW, SendWindow};
use std::alloc::{AllocError, Global};
use std::marker::Model;

/// What an out proxy is made with.
#[derive(Clone, Copy, Debug, PartialEq, Eq)]
pub struct OutProxyConfig {
    /// The number of its channel, from 1.
    pub number: u32,
    /// Its receive window, in bytes: 8,192 to 262,144.
    pub window: u32,
    /// The lifetime of its channel, in bytes: 131,072 to 2,147,483,648.
    pub lifetime: u32,
    /// Its connection timeout, in milliseconds: 120,000 to 14,400,000.
    pub timeout: u32,
}

impl OutProxyConfig {
    ghost use Rattle.std.specs.Prelude.{◌≡◌};
    ghost use Rattle.rh_sig.specs.Values.{IsLifetime, IsTimeout};
    ghost use Rattle.rh_window.specs.Sides.{IsWindow};

    /// That of the channel `number`, with the window, the lifetime and the timeout that stand
    /// where nothing else is said (profile).
    pub fn new(number: u32) -> OutProxyConfig
        ensures number { result.number ≡ number }
        ensures window { (result.window ≡ DEFAULT_WINDOW) × IsWindow result.window }
        ensures lifetime { (result.lifetime ≡ DEFAULT_LIFETIME) × IsLifetime result.lifetime }
        ensures timeout { (result.timeout ≡ DEFAULT_TIMEOUT) × IsTimeout result.timeout }
    {
        OutProxyConfig {
            number,
            window: DEFAULT_WINDOW,
            lifetime: DEFAULT_LIFETIME,
            timeout: DEFAULT_TIMEOUT,
        }
    }
}

/// The leg from the client.
#[derive(Clone, Copy)]
pub enum ClientLeg {
    Down,
    Up,
    /// It was lost behind END/B2: nothing goes there any more.
    Marked,
}

/// The leg to the server.
#[derive(Clone, Copy)]
pub enum ServerLeg {
    Down,
    /// It is up, and CONN/A2 or OUT_R1/A4 goes first there.
    FirstDue,
    Up,
    /// It was lost behind END/B2: the proxy ended.
    Marked,
}

/// What goes first to the client.
#[derive(Clone, Copy)]
pub enum Answer {
    /// Nothing is due: the server's leg is not up.
    Awaited,
    /// The answer to an echo request is due.
    EchoDue,
    EchoPut,
    /// It was drawn to its end: the proxy ended.
    EchoDrawn,
    /// The OUT response is due.
    ResponseDue,
    /// It was put, and CONN/A3 with the timeout goes behind it.
    TimeoutDue,
    /// All that goes first was put.
    Put,
}

/// The channel that the proxy carries, and whether its opening came to its end.
#[derive(Clone, Copy)]
pub enum Channel {
    /// No first packet came from the client.
    Unknown,
    /// CONN/A1 came, and CONN/C1 is to come.
    New {
        connection: Cookie,
        cookie: Cookie,
    },
    /// CONN/A1 and CONN/C1 came.
    Joined {
        connection: Cookie,
        cookie: Cookie,
    },
    /// OUT_R1/A3 came: it follows the channel of the cookie `predecessor`.
    Successor {
        connection: Cookie,
        predecessor: Cookie,
        cookie: Cookie,
    },
}

/// END, or the handover mark: it goes behind what is held when it comes.
#[derive(Clone, Copy)]
pub enum Mark {
    Awaited,
    Came,
    Put,
}

/// A Ping to the client.
#[derive(Clone, Copy)]
pub enum Ping {
    NotDue,
    Due,
}

impl Mark {
    ghost use Rattle.std.specs.Prelude.{◌≡◌};
    ghost use Rattle.rh_outproxy.specs.OutProxy.{has_come, is_due, is_put};

    /// Whether it came from the server.
    pub(crate) fn has_come(self) -> bool
        ensures { result ≡ has_come self }
    {
        match self {
            Mark::Awaited => false,
            Mark::Came | Mark::Put => true,
        }
    }

    /// Whether it came and is to be put.
    pub(crate) fn is_due(self) -> bool
        ensures { result ≡ is_due self }
    {
        self == Mark::Came
    }

    pub(crate) fn is_put(self) -> bool
        ensures { result ≡ is_put self }
    {
        self == Mark::Put
    }
}

/// The rules of an out proxy, and all that they read.
#[derive(Drop)]
pub struct OutProxyRole {
    pub(crate) config: OutProxyConfig,
    pub(crate) client: ClientLeg,
    pub(crate) request: Option<Request>,
    pub(crate) answer: Answer,
    pub(crate) channel: Channel,
    pub(crate) server: ServerLeg,
    pub(crate) line: RecvLine,
    pub(crate) window: SendWindow,
    pub(crate) waiting: Waiting,
    pub(crate) end: Mark,
    pub(crate) handover: Mark,
    pub(crate) ping: Ping,
    pub(crate) pinged: u32,
}

impl Model for OutProxyRole {
    ghost use Rattle.rh_keep.specs.declared.range.TheConstants.{GREATEST_LIFETIME};
    ghost use Rattle.rh_http.specs.declared.lengths.TheConstants.{PING_ROOM};
    ghost use Rattle.std.specs.Prelude.{◌≤◌};
    ghost use Rattle.rh_outproxy.specs.OutProxy as seen;

    ghost Value = { seen.OutProxy };

    ghost view = { λ s. record {
      config = s.config;
      client = s.client;
      request = seen.asked_some s.request;
      answer = s.answer;
      channel = s.channel;
      server = s.server;
      line = s.line;
      window = s.window;
      waiting = s.waiting;
      end = s.end;
      handover = s.handover;
      ping = s.ping;
      pinged = s.pinged;
    } };

    ghost invariant = { λ s. (s.pinged ≤ PING_ROOM)
        × (s.config.lifetime ≤ GREATEST_LIFETIME) };
}

impl OutProxyRole {
    ghost use Rattle.std.specs.Prelude.{◌≡◌, ◌≤◌, IfOk};
    ghost use Rattle.rh_keep.specs.declared.range.TheConstants.{GREATEST_LIFETIME};
    ghost use Rattle.rh_window.specs.Sides.{IsWindow};
    ghost use Rattle.rh_line.specs.Lines.{is_empty};
    ghost use Rattle.rh_outproxy.specs.OutProxy as seen;
    ghost use Rattle.rh_outproxy.specs.Rows as rows;

    /// An out proxy with no leg. No other call takes memory.
    ///
    /// Fails only for want of memory.
    pub fn new(alloc: Global, config: OutProxyConfig) -> Result<OutProxyRole, AllocError>
        requires window { IsWindow config.window }
        requires lifetime { config.lifetime ≤ GREATEST_LIFETIME }
        ensures { IfOk result (λ role. role ≡ seen.new_proxy config) }
    {
        Ok(OutProxyRole {
            config,
            client: ClientLeg::Down,
            request: None,
            answer: Answer::Awaited,
            channel: Channel::Unknown,
            server: ServerLeg::Down,
            line: RecvLine::new(alloc, config.window)?,
            window: SendWindow::new(0),
            waiting: Waiting::new(alloc, FORWARDED_ROOM)?,
            end: Mark::Awaited,
            handover: Mark::Awaited,
            ping: Ping::NotDue,
            pinged: 0,
        })
    }

    /// The host and port of the server that the client asked for. `None` exactly where no request
    /// was taken, or an echo request.
    pub fn target(&self) -> Option<(Host, u16)>
        ensures { seen.server_told result ≡ seen.server_of self.now.request }
    {
        match self.request {
            None => None,
            Some(request) => Some((request.host, request.port)),
        }
    }

    // ---- legs

    pub(crate) fn co(&self) -> Leg
        ensures { result ≡ rows.co self.now }
    {
        Leg {
            kind: LegKind::ClientOut,
            number: self.config.number,
        }
    }

    pub(crate) fn is_co(&self, leg: Leg) -> bool
        ensures { result ≡ rows.is_co self.now leg }
    {
        leg.kind == LegKind::ClientOut && leg.number == self.config.number
    }

    pub(crate) fn is_os(&self, leg: Leg) -> bool
        ensures { result ≡ rows.is_os self.now leg }
    {
        leg.kind == LegKind::OutServer && leg.number == self.config.number
    }

    // ---- conditions

    /// The channel's cookie, where OUT_R1/A3 or CONN/C1 came.
    pub(crate) fn joined(&self) -> Option<Cookie>
        ensures { result ≡ seen.joined self.now.channel }
    {
        match self.channel {
            Channel::Unknown | Channel::New { .. } => None,
            Channel::Joined { cookie, .. } | Channel::Successor { cookie, .. } => Some(cookie),
        }
    }

    /// Whether OUT_R1/A3 or CONN/C1 came, and no OUT_R1/A9.
    pub(crate) fn is_carrying(&self) -> bool
        ensures { result ≡ rows.is_carrying self.now }
    {
        self.joined().is_some() && !self.handover.has_come()
    }

    /// And no END.
    pub(crate) fn takes_pdus(&self) -> bool
        ensures { result ≡ rows.takes_pdus self.now }
    {
        self.is_carrying() && !self.end.has_come()
    }

    /// Whether no PDU is held.
    pub(crate) fn is_empty(&self) -> bool
        ensures { result ≡ is_empty self.now.line.current.pdus }
    {
        self.line.is_empty(Which::Current)
    }

    /// Whether an echo request was answered, the server's leg was lost in order, or OUT_R1/A10 was
    /// put.
    pub(crate) fn is_over(&self) -> bool
        ensures { result ≡ seen.is_over self.now }
    {
        self.answer == Answer::EchoDrawn
            || self.server == ServerLeg::Marked
            || self.handover.is_put()
    }

    pub(crate) fn phase_now(&self) -> Phase
        ensures { result ≡ seen.phase self.now }
    {
        if self.is_over() {
            Phase::Ended
        } else if self.server == ServerLeg::Down {
            Phase::Opening
        } else {
            Phase::Open
        }
    }
}
