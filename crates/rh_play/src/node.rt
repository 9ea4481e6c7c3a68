//! A node of any role.

ghost use Rattle.std.specs.Prelude.{◌≡◌, ◌≤◌, IfOk, length, take, drop};
ghost use Rattle.rh_http.specs.Hosts.{IsHost};
ghost use Rattle.rh_http.specs.Requests.{host_text};
ghost use Rattle.rh_world.specs.Config.{AreInRange};
ghost use Rattle.rh_world.specs.Hosts as hosts;
ghost use Rattle.rh_world.specs.Roles as roles;
ghost use Rattle.rh_play.specs.Nodes as seen;

use crate::target::target_of;
use rh_client::{Client, ClientConfig};
use rh_http::Host;
use rh_inproxy::{InProxy, InProxyConfig};
use rh_line::{GiveFault, Leg, LegKind, State, Take, Verdict};
use rh_outproxy::{OutProxy, OutProxyConfig};
use rh_pdu::header::GREATEST_FRAG;
use rh_record::{Answer, Side, TakeAnswer};
use rh_rts::Cookie;
use rh_script::{Ask, Cut, Loss, Part};
use rh_server::{FirstKind, Server, ServerConfig, first_kind};
use rh_sig::Pipe;
use rh_text::Bytes;
use rh_told::Target;
use rh_world::WorldConfig;
use rh_world::roles::{CLIENT_ADDRESS, PORT};
use std::alloc::{AllocError, Global};

/// The cookie of the virtual connection of a client.
pub const CONNECTION: Cookie = Cookie([0, 0, 0, 0, 0, 0, 0, 0, 0, 0, 0, 0, 0, 0, 0, 1]);

/// The cookie of its association group.
pub const GROUP: Cookie = Cookie([0, 0, 0, 0, 0, 0, 0, 0, 0, 0, 0, 0, 0, 0, 0, 2]);

/// A node of any role.
#[derive(Drop)]
pub enum Node {
    Client(Client),
    Server(Server),
    InProxy(InProxy),
    OutProxy(OutProxy),
}

// ---- nodes are made

/// The host of a name that a host may have.
fn host(name: &[u8]) -> Host
    requires { IsHost name.now }
    ensures { host_text result ≡ name.now }
{
    match Host::new(name) {
        Ok(host) => host,
        Err(_) => unreachable!(),
    }
}

/// The host of the server.
#[tactic(auto, using(rh_http::proofs::HostLemmas::host_once, rh_world::specs::Hosts::server_is_host))]
fn server_host() -> Host
    ensures { result ≡ hosts.server_host }
{
    host(b"server")
}

/// The host of the client's proxy.
#[tactic(auto, using(rh_http::proofs::HostLemmas::host_once, rh_world::specs::Hosts::proxy_is_host))]
fn proxy_host() -> Host
    ensures { result ≡ hosts.proxy_host }
{
    host(b"proxy")
}

/// A client with these numbers.
fn new_client(alloc: Global, config: &WorldConfig) -> Result<Client, AllocError>
    requires { AreInRange config.now }
    ensures { IfOk result (λ node. node ≡ roles.client config.now CONNECTION GROUP) }
{
    let config = ClientConfig {
        connection: CONNECTION,
        group: GROUP,
        window: config.cwin,
        lifetime: config.ilife,
        keepalive: config.keep,
        host: server_host(),
        port: PORT,
        proxy_host: proxy_host(),
    };
    Client::new(alloc, config)
}

/// A server with these numbers.
fn new_server(alloc: Global, config: &WorldConfig) -> Result<Server, AllocError>
    requires { AreInRange config.now }
    ensures { IfOk result (λ node. node ≡ roles.server config.now) }
{
    let window = config.swin;
    Server::new(alloc, ServerConfig { window })
}

/// An in proxy with these numbers, whose first channel has this one.
fn new_in_proxy(alloc: Global, config: &WorldConfig, number: u32) -> Result<InProxy, AllocError>
    requires range { AreInRange config.now }
    requires number { 1 ≤ number }
    ensures { IfOk result (λ node. node ≡ roles.in_proxy config.now number) }
{
    let config = InProxyConfig {
        number,
        window: config.iwin,
        timeout: config.itime,
        address: CLIENT_ADDRESS,
    };
    InProxy::new(alloc, config)
}

/// An out proxy with these numbers, whose channel has this one.
fn new_out_proxy(alloc: Global, config: &WorldConfig, number: u32) -> Result<OutProxy, AllocError>
    requires range { AreInRange config.now }
    requires number { 1 ≤ number }
    ensures { IfOk result (λ node. node ≡ roles.out_proxy config.now number) }
{
    let config = OutProxyConfig {
        number,
        window: config.owin,
        lifetime: config.olife,
        timeout: config.otime,
    };
    OutProxy::new(alloc, config)
}

// ---- what an end answers

/// What is answered to a give.
fn give_answer(side: Side, pdu: &[u8], given: Result<(), GiveFault>) -> Answer
    ensures { result ≡ seen.give_answer side pdu.now given }
{
    let answer = match given {
        Ok(()) => Ok(pdu.len().min(65_535) as u16),
        Err(fault) => Err(fault),
    };
    Answer::Give { side, answer }
}

/// What is answered to a take, whose PDU stands at the front of the room.
fn take_answer(alloc: Global, take: Take, room: &[u8]) -> Result<TakeAnswer, AllocError>
    requires { seen.Fits take room.now }
    ensures { IfOk result (λ answer. answer ≡ seen.take_answer take room.now) }
{
    match take {
        Take::Pdu(len) => {
            let (pdu, _) = room.split_at(usize::from(len));
            Ok(TakeAnswer::Pdu(Bytes::new(Vec::from_slice(alloc, pdu)?)))
        }
        Take::Empty => Ok(TakeAnswer::Empty),
        Take::Ended => Ok(TakeAnswer::Ended),
        Take::Closed(cause) => Ok(TakeAnswer::Closed(cause)),
    }
}

/// The answer of that end to a take, whose PDU stands at the front of the room.
fn end_takes(
    alloc: Global,
    side: Side,
    take: Take,
    room: &[u8],
) -> Result<Option<Answer>, AllocError>
    requires { seen.Fits take room.now }
    ensures { IfOk result (λ answer. answer ≡ seen.end_takes side (seen.take_answer take room.now)) }
{
    let answer = take_answer(alloc, take, room)?;
    Ok(Some(Answer::Take { side, answer }))
}

impl Node {
    /// The node that a part asks for, with these numbers.
    ///
    /// Fails where there is no memory.
    pub fn new(alloc: Global, part: Part, config: &WorldConfig) -> Result<Node, AllocError>
        requires { AreInRange config.now }
        ensures { IfOk result (λ node. node ≡ seen.made config.now part) }
    {
        match part {
            Part::Client => Ok(Node::Client(new_client(alloc, config)?)),
            Part::Server => Ok(Node::Server(new_server(alloc, config)?)),
            Part::InProxy(number) => {
                Ok(Node::InProxy(new_in_proxy(alloc, config, number.max(1))?))
            }
            Part::OutProxy(number) => {
                Ok(Node::OutProxy(new_out_proxy(alloc, config, number.max(1))?))
            }
        }
    }

    // ---- legs

    /// Whether the node asks for the leg to be connected.
    fn wants(&self, leg: Leg) -> bool
        ensures { result ≡ seen.wants self.now leg }
    {
        match self {
            Node::Client(node) => node.wants(leg),
            Node::Server(node) => node.wants(leg),
            Node::InProxy(node) => node.wants(leg),
            Node::OutProxy(node) => node.wants(leg),
        }
    }

    /// Whether the leg is wanted, or may be accepted.
    fn may_up(&self, leg: Leg) -> bool
        ensures { result ≡ seen.may_up self.now leg }
    {
        match self {
            Node::Client(node) => node.may_up(leg),
            Node::Server(node) => node.may_up(leg),
            Node::InProxy(node) => node.may_up(leg),
            Node::OutProxy(node) => node.may_up(leg),
        }
    }

    /// Whether the node has no use for the leg any more.
    fn finished(&self, leg: Leg) -> bool
        ensures { result ≡ seen.finished self.now leg }
    {
        match self {
            Node::Client(node) => node.finished(leg),
            Node::Server(node) => node.finished(leg),
            Node::InProxy(node) => node.finished(leg),
            Node::OutProxy(node) => node.finished(leg),
        }
    }

    /// What is asked of a leg.
    pub fn ask(&self, ask: Ask, leg: Leg) -> bool
        ensures { result ≡ seen.asked self.now ask leg }
    {
        match ask {
            Ask::Wants => self.wants(leg),
            Ask::May => self.may_up(leg),
            Ask::Finished => self.finished(leg),
        }
    }

    /// The leg comes up, where it may.
    fn seat(&mut self, leg: Leg, cookie: Cookie)
        ensures { self.new ≡ seen.seated self.old leg cookie }
    {
        match self {
            Node::Client(node) => node.up(leg, cookie),
            Node::Server(node) => node.up(leg),
            Node::InProxy(node) => node.up(leg),
            Node::OutProxy(node) => node.up(leg),
        }
    }

    /// The leg comes up, where it may, and answers whether it did. The cookie names the channel of
    /// a client's leg, and is passed over elsewhere.
    pub fn up(&mut self, leg: Leg, cookie: Cookie) -> bool
        ensures { (self.new, result) ≡ seen.up self.old leg cookie }
    {
        let may = self.may_up(leg);
        self.seat(leg, cookie);
        may
    }

    /// A piece comes on the leg.
    fn hear(&mut self, leg: Leg, piece: &[u8]) -> Verdict
        ensures { (self.new, result) ≡ seen.heard self.old leg piece.now }
    {
        match self {
            Node::Client(node) => node.bytes(leg, piece),
            Node::Server(node) => node.bytes(leg, piece),
            Node::InProxy(node) => node.bytes(leg, piece),
            Node::OutProxy(node) => node.bytes(leg, piece),
        }
    }

    /// Bytes come on the leg one by one.
    fn hear_each(&mut self, leg: Leg, bytes: &[u8]) -> Verdict
        ensures { (self.new, result) ≡ seen.heard_each self.old leg bytes.now }
    {
        let mut verdict = Verdict::Going;
        'bytes: for byte in bytes {
            verdict = self.hear(leg, &[*byte]);
        }
        verdict
    }

    /// Bytes come on the leg, and the node answers what it is behind the last.
    pub fn feed(&mut self, cut: Cut, leg: Leg, bytes: &[u8]) -> Verdict
        ensures { (self.new, result) ≡ seen.fed self.old cut leg bytes.now }
    {
        match cut {
            Cut::Whole => self.hear(leg, bytes),
            Cut::Each => self.hear_each(leg, bytes),
        }
    }

    /// The other side ended the leg.
    fn ended(&mut self, leg: Leg) -> Verdict
        ensures { (self.new, result) ≡ seen.ended self.old leg }
    {
        match self {
            Node::Client(node) => node.ended(leg),
            Node::Server(node) => node.ended(leg),
            Node::InProxy(node) => node.ended(leg),
            Node::OutProxy(node) => node.ended(leg),
        }
    }

    /// The leg failed, or could not be connected.
    fn broken(&mut self, leg: Leg) -> Verdict
        ensures { (self.new, result) ≡ seen.broken self.old leg }
    {
        match self {
            Node::Client(node) => node.broken(leg),
            Node::Server(node) => node.broken(leg),
            Node::InProxy(node) => node.broken(leg),
            Node::OutProxy(node) => node.broken(leg),
        }
    }

    /// The leg is lost.
    pub fn lose(&mut self, loss: Loss, leg: Leg) -> Verdict
        ensures { (self.new, result) ≡ seen.lost self.old loss leg }
    {
        match loss {
            Loss::Ended => self.ended(leg),
            Loss::Broken => self.broken(leg),
        }
    }

    /// Puts the next bytes of the leg into the front of the room, and answers how many.
    fn draw_into(&mut self, leg: Leg, room: &mut [u8]) -> usize
        ensures drawn { (self.new, take result room.new) ≡ seen.drawn self.old leg (length room.old) }
        ensures rest { drop result room.new ≡ drop result room.old }
        ensures fits { result ≤ length room.old }
    {
        match self {
            Node::Client(node) => node.draw(leg, room),
            Node::Server(node) => node.draw(leg, room),
            Node::InProxy(node) => node.draw(leg, room),
            Node::OutProxy(node) => node.draw(leg, room),
        }
    }

    /// Up to `count` bytes of the leg are drawn.
    ///
    /// Fails where there is no memory for them.
    pub fn draw(&mut self, alloc: Global, leg: Leg, count: u32) -> Result<Bytes, AllocError>
        ensures { IfOk result (λ bytes. (self.new, bytes) ≡ seen.drawn self.old leg count) }
    {
        let mut room = vec![in alloc; 0u8; count as usize]?;
        let drawn = self.draw_into(leg, room.as_mut_slice());
        room.truncate(drawn);
        Ok(Bytes::new(room))
    }

    /// The pipe on which the node puts packets of such legs; `None` where it puts none there.
    pub fn put_on(&self, kind: LegKind) -> Option<Pipe>
        ensures { result ≡ seen.put_on self.now kind }
    {
        match (self, kind) {
            (Node::Client(_), LegKind::ClientIn) => Some(Pipe::CiU),
            (Node::Client(_), LegKind::ClientOut) => Some(Pipe::CoU),
            (Node::Server(_), LegKind::InServer) => Some(Pipe::IsD),
            (Node::Server(_), LegKind::OutServer) => Some(Pipe::OsD),
            (Node::InProxy(_), LegKind::InServer) => Some(Pipe::IsU),
            (Node::OutProxy(_), LegKind::ClientOut) => Some(Pipe::CoD),
            (Node::OutProxy(_), LegKind::OutServer) => Some(Pipe::OsU),
            _ => None,
        }
    }

    /// The moment, in milliseconds.
    pub fn tick(&mut self, now: u64) -> Verdict
        ensures { (self.new, result) ≡ seen.ticked self.old now }
    {
        match self {
            Node::Client(node) => node.tick(now),
            Node::Server(node) => node.tick(now),
            Node::InProxy(node) => node.tick(now),
            Node::OutProxy(node) => node.tick(now),
        }
    }

    /// The state.
    pub fn state(&self) -> State
        ensures { result ≡ seen.state self.now }
    {
        match self {
            Node::Client(node) => node.state(),
            Node::Server(node) => node.state(),
            Node::InProxy(node) => node.state(),
            Node::OutProxy(node) => node.state(),
        }
    }

    // ---- ends and proxies; `None` where the node is no such one

    /// A PDU is offered at an end.
    pub fn give(&mut self, pdu: &[u8]) -> Option<Answer>
        ensures { (self.new, result) ≡ seen.given self.old pdu.now }
    {
        match self {
            Node::Client(node) => Some(give_answer(Side::Client, pdu, node.give(pdu))),
            Node::Server(node) => Some(give_answer(Side::Server, pdu, node.give(pdu))),
            Node::InProxy(_) | Node::OutProxy(_) => None,
        }
    }

    /// The next PDU is taken at an end.
    ///
    /// Fails where there is no memory for it.
    #[tactic(auto, using(crate::proofs::Taking::took))]
    pub fn take(&mut self, alloc: Global) -> Result<Option<Answer>, AllocError>
        ensures { IfOk result (λ answer. (self.new, answer) ≡ seen.taken self.old) }
    {
        let mut room = [0; GREATEST_FRAG];
        match self {
            Node::Client(node) => {
                let take = node.take(&mut room);
                end_takes(alloc, Side::Client, take, &room)
            }
            Node::Server(node) => {
                let take = node.take(&mut room);
                end_takes(alloc, Side::Server, take, &room)
            }
            Node::InProxy(_) | Node::OutProxy(_) => Ok(None),
        }
    }

    /// An end gives no more PDUs.
    pub fn close(&mut self) -> Option<Answer>
        ensures { (self.new, result) ≡ seen.closed self.old }
    {
        let side = match self {
            Node::Client(node) => {
                node.close();
                Side::Client
            }
            Node::Server(node) => {
                node.close();
                Side::Server
            }
            Node::InProxy(_) | Node::OutProxy(_) => return None,
        };
        Some(Answer::Close { side })
    }

    /// The channel on which an end writes is to be replaced.
    pub fn recycle(&mut self) -> Option<Answer>
        ensures { (self.new, result) ≡ seen.recycled self.old }
    {
        match self {
            Node::Client(node) => Some(Answer::RecycleIn(node.recycle_in())),
            Node::Server(node) => Some(Answer::RecycleOut(node.recycle_out())),
            Node::InProxy(_) | Node::OutProxy(_) => None,
        }
    }

    /// The numbers of the IN and the OUT channel in use at an end.
    pub fn channels(&self) -> Option<(u32, u32)>
        ensures { result ≡ seen.channels self.now }
    {
        match self {
            Node::Client(node) => Some(node.channels()),
            Node::Server(node) => Some(node.channels()),
            Node::InProxy(_) | Node::OutProxy(_) => None,
        }
    }

    /// The server that a proxy is to connect, where it knows one.
    pub fn target(&self) -> Option<Option<Target>>
        ensures { result ≡ seen.target self.now }
    {
        match self {
            Node::InProxy(node) => Some(target_of(node.target())),
            Node::OutProxy(node) => Some(target_of(node.target())),
            Node::Client(_) | Node::Server(_) => None,
        }
    }

    /// Which kind of leg of a server begins with these bytes.
    pub fn first(&self, bytes: &[u8]) -> Option<FirstKind>
        ensures { result ≡ seen.first self.now bytes.now }
    {
        match self {
            Node::Server(_) => Some(first_kind(bytes)),
            Node::Client(_) | Node::InProxy(_) | Node::OutProxy(_) => None,
        }
    }
}
