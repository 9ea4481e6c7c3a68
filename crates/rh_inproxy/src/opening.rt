//! How an in proxy opens: its legs, the requests, the first packets, and the answer to an echo
//! request.

ghost use Rattle.std.specs.Prelude.{◌≡◌};
ghost use Rattle.rh_inproxy.specs.Opening.{echo_answer, kept_for};

use crate::row::Row;
use crate::state::{
    ClientLeg, Edge, Entry, Handover, InProxyRole, Opener, Opening, Successor, Target, Work,
    is_client_leg,
};
use rh_http::lengths::GREATEST_ECHO;
use rh_http::{Host, Request, judge_request};
use rh_line::{Leg, LegKind};
use rh_rts::{Address4or16, Cookie};
use rh_shell::{Begun, Behind, HeadRefused, HeadTaken, Phase, Refused};
use rh_sig::ranges::DEFAULT_KEEPALIVE;
use rh_sig::{Named, Pipe};
use rh_window::SendWindow;

/// The greatest Content-Length of an echo request, in bytes (profile).
pub const ECHO_LENGTH: u32 = GREATEST_ECHO;
/// The most that the Content-Lengths of the requests add up to before a later ci leg comes up, in
/// bytes: so no edge that the server tells passes 32 bits (profile).
pub const GREATEST_LENGTHS: u64 = 2_147_221_503;
/// The keepalive agreed by default, in milliseconds (profile).
pub const KEEPALIVE: u32 = 300_000;

/// A head of 75 bytes, and an Echo packet (MS-RPCH 2.1.2).
const ECHO_ANSWER: [u8; 95] = *b"HTTP/1.1 200 Success\r\nContent-Type: application/rpc\r\n\
    Content-Length: 20\r\n\r\n\
    \x05\0\x14\x03\x10\0\0\0\x14\0\0\0\0\0\0\0\x40\0\0\0";

/// Begins the answer to an echo request.
#[tactic(auto, unfolding(crate::specs::Opening::echo_answer, rh_rts::specs::Packets::packet_bytes))]
fn begin_echo_answer(begun: &mut Begun)
    ensures { begun.new ≡ echo_answer }
{
    begun.begin(&ECHO_ANSWER);
}

/// The keepalive that a packet tells, where 0 stands for the default.
pub(crate) fn kept_for(keepalive: u32) -> u32
    ensures { result ≡ kept_for keepalive }
{
    if keepalive == DEFAULT_KEEPALIVE {
        KEEPALIVE
    } else {
        keepalive
    }
}

impl InProxyRole {
    ghost use Rattle.std.specs.Prelude.{◌≡◌, ◌≤◌, [], Some, length};
    ghost use Rattle.rh_sig.specs.Values.{MayBeWritten};
    ghost use Rattle.rh_http.specs.Heads.Verdicts.{asked};
    ghost use Rattle.rh_http.specs.Reading.{greatest_head};
    ghost use Rattle.rh_shell.specs.Rules.{put_into};
    ghost use Rattle.rh_inproxy.specs.Answers.{is_some};
    ghost use Rattle.rh_inproxy.specs.Opening as seen;
    ghost use Rattle.rh_inproxy.specs.State.{pair_of};

    /// How far the proxy has come.
    pub(crate) fn phase_of(&self) -> Phase
        ensures { result ≡ seen.phase_of self.now }
    {
        match (self.work, self.opening) {
            (Work::Done, _) => Phase::Ended,
            (_, Opening::Announces(_) | Opening::Announced(_)) => Phase::Open,
            _ => Phase::Opening,
        }
    }

    // ---- legs

    /// Whether the leg is the is leg, which is wanted.
    pub(crate) fn wants_leg(&self, leg: Leg) -> bool
        ensures { result ≡ seen.wants self.now leg }
    {
        self.is_server_leg(leg) && matches!(self.opening, Opening::WantsServer(_))
    }

    /// Whether a ci leg behind the first one may come up.
    fn accepts_later(&self, number: u32) -> bool
        ensures { result ≡ seen.accepts_later self.now number }
    {
        u64::from(number) == u64::from(self.current.number) + 1
            && matches!(self.successor, Successor::Absent)
            && self.lengths <= GREATEST_LENGTHS
            && matches!(self.handover, Handover::Before)
    }

    /// Whether the leg is a ci leg that may come up.
    pub(crate) fn may_accept(&self, leg: Leg) -> bool
        ensures { result ≡ seen.may_accept self.now leg }
    {
        is_client_leg(leg)
            && match self.opening {
                Opening::AwaitsClient => self.current.number == leg.number,
                Opening::AwaitsPacket => false,
                _ => self.accepts_later(leg.number),
            }
    }

    /// The leg is up, where it may be.
    pub(crate) fn raise(&mut self, leg: Leg)
        ensures { self.new ≡ seen.up self.old leg }
    {
        if self.may_accept(leg) {
            if matches!(self.opening, Opening::AwaitsClient) {
                self.opening = Opening::AwaitsPacket;
            } else {
                self.successor = Successor::Up(leg.number);
                self.newest_lost = false;
            }
        } else if self.is_server_leg(leg) {
            if let Opening::WantsServer(opener) = self.opening {
                self.opening = Opening::Announces(opener);
            }
        }
    }

    /// The number of the newest ci leg.
    pub(crate) fn newest(&self) -> u32
        ensures { result ≡ seen.newest self.now }
    {
        match self.successor {
            Successor::Absent => self.current.number,
            Successor::Up(number) => number,
            Successor::Joined(leg, _) => leg.number,
        }
    }

    /// Whether the leg was ever up.
    pub(crate) fn had_leg(&self, leg: Leg) -> bool
        ensures { result ≡ seen.was_up self.now leg }
    {
        if is_client_leg(leg) {
            return !matches!(self.opening, Opening::AwaitsClient)
                && self.config.number <= leg.number
                && leg.number <= self.newest();
        }
        self.is_server_leg(leg)
            && matches!(self.opening, Opening::Announces(_) | Opening::Announced(_))
    }

    /// The pipe on which packets come.
    pub(crate) fn pipe_of(&self, leg: Leg) -> Option<Pipe>
        ensures { result ≡ seen.pipe self.now leg }
    {
        if is_client_leg(leg) {
            Some(Pipe::CiU)
        } else if self.is_server_leg(leg) {
            Some(Pipe::IsD)
        } else {
            None
        }
    }

    /// The first ci leg.
    pub(crate) fn first_client_leg(&self) -> Leg
        ensures { Some result ≡ seen.answers_on self.now }
    {
        Leg {
            kind: LegKind::ClientIn,
            number: self.config.number,
        }
    }

    // ---- requests

    /// An echo request came.
    fn ask_echo(&mut self, number: u32, request: &Request) -> Result<HeadTaken, HeadRefused>
        ensures { (self.new, result) ≡ seen.echo_asked self.old number (asked request.now) }
    {
        self.work = Work::EchoDue(number);
        Ok(HeadTaken {
            behind: Behind::PassedOver,
            length: request.length,
        })
    }

    /// A request for a channel came.
    fn ask_channel(&mut self, request: &Request) -> Result<HeadTaken, HeadRefused>
        ensures { (self.new, result) ≡ seen.channel_asked self.old (asked request.now) }
    {
        if self.target.is_none() {
            self.target = Some(Target {
                host: request.host,
                port: request.port,
            });
        }
        self.lengths = self.lengths.saturating_add(u64::from(request.length));
        Ok(HeadTaken {
            behind: Behind::Frames,
            length: request.length,
        })
    }

    /// A head came on a ci leg.
    pub(crate) fn on_head(&mut self, leg: Leg, text: &[u8]) -> Result<HeadTaken, HeadRefused>
        requires { length text.now ≤ greatest_head }
        ensures { (self.new, result) ≡ seen.head self.old leg text.now }
    {
        match judge_request(text, true) {
            Err(fault) => Err(HeadRefused::Request(fault)),
            Ok(request) => {
                if request.length <= ECHO_LENGTH {
                    self.ask_echo(leg.number, &request)
                } else {
                    self.ask_channel(&request)
                }
            }
        }
    }

    /// The host and the port of the server, once a request for a channel came.
    pub(crate) fn server(&self) -> Option<(Host, u16)>
        ensures { pair_of result ≡ self.now.target }
    {
        match &self.target {
            None => None,
            Some(target) => Some((target.host, target.port)),
        }
    }

    /// Puts the answer to an echo request on the ci leg that asked.
    pub(crate) fn put_echo(&mut self, number: u32, begun: &mut Begun)
        requires { begun.old ≡ [] }
        ensures { (self.new, begun.new) ≡ put_into self.old (seen.put_echo self.old number) }
    {
        if let Work::EchoDue(asked_on) = self.work {
            if asked_on == number {
                self.work = Work::EchoPut(asked_on);
                begin_echo_answer(begun);
            }
        }
    }

    /// What was put on the leg is drawn to its end.
    pub(crate) fn on_drawn(&mut self, leg: Leg)
        ensures { self.new ≡ seen.drawn self.old leg }
    {
        if let Work::EchoPut(asked_on) = self.work {
            if is_client_leg(leg) && asked_on == leg.number {
                self.work = Work::Done;
            }
        }
    }

    // ---- first packets

    /// Whether the first packet on this ci leg is the first of all.
    pub(crate) fn is_first(&self, number: u32) -> bool
        ensures { result ≡ seen.is_first self.now number }
    {
        matches!(self.opening, Opening::AwaitsPacket) && self.current.number == number
    }

    /// The first packet of all came; the keepalive is in milliseconds.
    fn open(&mut self, opener: &Opener, keepalive: u32) -> Row
        ensures { (self.new, result) ≡ seen.opened self.old opener.now keepalive }
    {
        self.opening = Opening::WantsServer(*opener);
        self.current = ClientLeg {
            number: self.current.number,
            cookie: opener.channel,
        };
        self.keepalive = keepalive;
        Ok(())
    }

    pub(crate) fn on_conn_b1(
        &mut self,
        number: u32,
        connection: Cookie,
        channel: Cookie,
        keepalive: u32,
        group: Cookie,
    ) -> Row
        ensures { (self.new, result)
            ≡ seen.on_conn_b1 self.old number connection channel keepalive group }
    {
        if !self.is_first(number) {
            return Err(Refused::Unexpected);
        }
        let opener = Opener {
            connection,
            channel,
            entry: Entry::Connects { group },
        };
        self.open(&opener, kept_for(keepalive))
    }

    pub(crate) fn on_first_in_r1_a1(
        &mut self,
        connection: Cookie,
        predecessor: Cookie,
        channel: Cookie,
    ) -> Row
        ensures { (self.new, result)
            ≡ seen.on_first_in_r1_a1 self.old connection predecessor channel }
    {
        let opener = Opener {
            connection,
            channel,
            entry: Entry::Replaces { predecessor },
        };
        self.open(&opener, KEEPALIVE)
    }

    /// CONN/B2 or IN_R1/A2.
    fn announcement(&self, opener: &Opener) -> Named
        ensures packet { result ≡ seen.announcement self.now opener.now opener.now.entry }
        ensures writable { MayBeWritten result }
    {
        match opener.entry {
            Entry::Connects { group } => Named::ConnB2(
                1,
                opener.connection,
                opener.channel,
                self.config.window,
                self.config.timeout,
                group,
                Address4or16::V4(self.config.address),
                [0; 12],
            ),
            Entry::Replaces { predecessor } => Named::InR1A2(
                1,
                opener.connection,
                predecessor,
                opener.channel,
                self.config.window,
                self.config.timeout,
            ),
        }
    }

    /// Puts what goes first on is. Each of these answers whether it put something.
    pub(crate) fn put_first(&mut self, begun: &mut Begun) -> bool
        requires { begun.old ≡ [] }
        ensures put { (self.new, begun.new) ≡ put_into self.old (seen.put_first self.old) }
        ensures told { result ≡ is_some (seen.put_first self.old) }
    {
        let Opening::Announces(opener) = self.opening else {
            return false;
        };
        begun.begin_packet(&self.announcement(&opener));
        self.opening = Opening::Announced(opener);
        true
    }

    // ---- the window of the server

    /// What the first packet told, once it came.
    pub(crate) fn opener_of(&self) -> Option<Opener>
        ensures { result ≡ seen.opener_of self.now.opening }
    {
        match self.opening {
            Opening::AwaitsClient | Opening::AwaitsPacket => None,
            Opening::WantsServer(opener)
            | Opening::Announces(opener)
            | Opening::Announced(opener) => Some(opener),
        }
    }

    /// The server told its window, of so many bytes.
    pub(crate) fn open_window(&mut self, size: u32) -> Row
        ensures { (self.new, result) ≡ seen.with_edge self.old size }
    {
        self.window = SendWindow::new(size);
        self.edge = Edge::Known;
        Ok(())
    }

    /// Whether the server has not told its window.
    pub(crate) fn awaits_edge(&self) -> bool
        ensures { result ≡ seen.is_unknown self.now.edge }
    {
        matches!(self.edge, Edge::Unknown)
    }

    pub(crate) fn on_conn_b3(&mut self, size: u32) -> Row
        ensures { (self.new, result) ≡ seen.on_conn_b3 self.old size }
    {
        match self.opener_of() {
            Some(
                Opener {
                    entry: Entry::Connects { .. },
                    ..
                },
            ) if self.awaits_edge() => self.open_window(size),
            _ => Err(Refused::Unexpected),
        }
    }
}
