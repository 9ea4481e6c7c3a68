//! The machines of the four roles.

ghost use Rattle.std.specs.Prelude.{◌≡◌};
ghost use Rattle.rh_shell.specs.Ends as ends;
ghost use Rattle.rh_client.specs.Client.{acts as client_acts};
ghost use Rattle.rh_server.specs.Servers.{acts as server_acts};
ghost use Rattle.rh_machines.specs.declared.event.NodeReply.TheVariants as reply;
ghost use Rattle.rh_machines.specs.declared.node.Role.TheVariants as played;
ghost use Rattle.rh_machines.specs.Machines.{taken_len, taken_of};
ghost use Rattle.rh_outproxy.specs.OutProxy.{server_told};

use crate::block::{Block, BlockRoom};
use crate::boxed::Boxed;
use crate::event::{NodeEvent, NodeReply, Server as Told};
use crate::node::{Node, Role};
use crate::piece::Piece;
use rh_client::Client;
use rh_http::{ClientConfig, Host};
use rh_inproxy::{InProxy, InProxyConfig};
use rh_line::Take;
use rh_outproxy::{OutProxy, OutProxyConfig};
use rh_server::{Server, ServerConfig};
use rh_turn::Machine;
use std::alloc::{AllocError, Global};

/// The machine of a client.
pub struct ClientNode;

/// The machine of an in proxy.
pub struct InProxyNode;

/// The machine of an out proxy.
pub struct OutProxyNode;

/// The machine of a server.
pub struct ServerNode;

// The replies to the events that every role has; `$up` lets a leg come up.
macro_rules! shared {
    ($node:ident, $event:ident, ($leg:ident, $cookie:ident) => $up:expr, $target:expr) => {
        match $event {
            NodeEvent::Wants(leg) => NodeReply::Told($node.wants(leg)),
            NodeEvent::Up {
                leg: $leg,
                cookie: $cookie,
            } => {
                let may = $node.may_up($leg);
                $up;
                NodeReply::Told(may)
            }
            NodeEvent::Bytes { leg, piece } => {
                let verdict = $node.bytes(leg, piece.bytes());
                let finished = $node.finished(leg);
                NodeReply::Fed {
                    verdict,
                    finished,
                    piece,
                }
            }
            NodeEvent::Ended(leg) => NodeReply::Verdict($node.ended(leg)),
            NodeEvent::Broken(leg) => NodeReply::Verdict($node.broken(leg)),
            NodeEvent::Draw { leg, room } => {
                let (most, mut room) = room.into_parts();
                let (front, _) = room.split_at_mut(most);
                let count = $node.draw(leg, front);
                NodeReply::Drawn(Piece::new(count, room))
            }
            NodeEvent::Finished(leg) => NodeReply::Told($node.finished(leg)),
            NodeEvent::Tick(now) => NodeReply::Verdict($node.tick(now)),
            NodeEvent::State => NodeReply::State($node.state()),
            NodeEvent::Target => $target,
            NodeEvent::Give(_) | NodeEvent::Take(_) | NodeEvent::Close | NodeEvent::Recycle => {
                NodeReply::NotHere
            }
        }
    };
}

// The replies to the events that an end has besides.
macro_rules! at_end {
    ($node:ident, $event:ident, ($leg:ident, $cookie:ident) => $up:expr, $take:ident, $recycle:ident) => {
        match $event {
            NodeEvent::Give(block) => {
                let given = $node.give(block.bytes());
                NodeReply::Given { given, block }
            }
            NodeEvent::Take(room) => $take($node, room.into_room()),
            NodeEvent::Close => {
                $node.close();
                NodeReply::Done
            }
            NodeEvent::Recycle => NodeReply::Recycled($node.$recycle()),
            event => shared!($node, event, ($leg, $cookie) => $up, NodeReply::NotHere),
        }
    };
}

fn told(server: Option<(Host, u16)>) -> NodeReply
    ensures { result ≡ reply.Target (server_told server) }
{
    match server {
        Some((host, port)) => NodeReply::Target(Some(Told { host, port })),
        None => NodeReply::Target(None),
    }
}

// How many bytes stand at the front of the room behind a take.
fn taken_len(answer: Take) -> usize
    ensures { result ≡ taken_len answer }
{
    match answer {
        Take::Pdu(len) => usize::from(len),
        Take::Empty | Take::Ended | Take::Closed(_) => 0,
    }
}

fn take_client(node: &mut Client, room: BlockRoom) -> NodeReply
    ensures node { node.new ≡ ends.after_take client_acts node.old }
    ensures taken { result ≡ taken_of client_acts node.old }
{
    let mut room = room;
    let answer = node.take(&mut room);
    let block = Block::new(taken_len(answer), room);
    NodeReply::Taken { answer, block }
}

fn take_server(node: &mut Server, room: BlockRoom) -> NodeReply
    ensures node { node.new ≡ ends.after_take server_acts node.old }
    ensures taken { result ≡ taken_of server_acts node.old }
{
    let mut room = room;
    let answer = node.take(&mut room);
    let block = Block::new(taken_len(answer), room);
    NodeReply::Taken { answer, block }
}

impl Machine for ClientNode {
    ghost use Rattle.rh_client.specs.Client.{rules, acts};
    ghost use Rattle.rh_machines.specs.Machines.{end_next, end_reply};

    type State = Boxed<Client>;

    type Event = NodeEvent;

    type Reply = NodeReply;

    ghost next = { end_next rules (λ cookie. cookie) acts };

    ghost reply = { end_reply rules acts };

    fn act(state: &mut Boxed<Client>, event: NodeEvent) -> NodeReply {
        let node = &mut *state.inner;
        at_end!(node, event, (leg, cookie) => node.up(leg, cookie), take_client, recycle_in)
    }
}

impl Node for ClientNode {
    ghost use Rattle.std.specs.Prelude.{refl};
    ghost use Rattle.rh_window.specs.Sides.{IsWindow};
    ghost use Rattle.rh_client.specs.Client.{first_client};

    type Config = ClientConfig;

    const ROLE: Role = Role::Client;

    ghost ROLE = { played.Client };

    ghost can_make = { λ config. IsWindow config.window };

    ghost first = { first_client };

    ghost numbered = { λ _. 1 };

    ghost hands_back = { record {
      fed = λ s leg piece. refl;
      drawn = λ s leg room. tt;
      given = λ s block. refl;
      taken = λ s room. tt;
    } };

    fn number(_config: &ClientConfig) -> u32 {
        1
    }

    fn make(alloc: Global, config: &ClientConfig) -> Result<Boxed<Client>, AllocError> {
        Ok(Boxed::new(alloc, Client::new(alloc, *config)?)?)
    }
}

impl Machine for ServerNode {
    ghost use Rattle.rh_server.specs.Servers.{rules, acts};
    ghost use Rattle.rh_server.specs.States.{no_cookie};
    ghost use Rattle.rh_machines.specs.Machines.{end_next, end_reply};

    type State = Boxed<Server>;

    type Event = NodeEvent;

    type Reply = NodeReply;

    ghost next = { end_next rules (λ _. no_cookie) acts };

    ghost reply = { end_reply rules acts };

    fn act(state: &mut Boxed<Server>, event: NodeEvent) -> NodeReply {
        let node = &mut *state.inner;
        at_end!(node, event, (leg, _cookie) => node.up(leg), take_server, recycle_out)
    }
}

impl Node for ServerNode {
    ghost use Rattle.std.specs.Prelude.{refl};
    ghost use Rattle.rh_window.specs.Sides.{IsWindow};
    ghost use Rattle.rh_server.specs.Servers.{new_server};

    type Config = ServerConfig;

    const ROLE: Role = Role::Server;

    ghost ROLE = { played.Server };

    ghost can_make = { λ config. IsWindow config.window };

    ghost first = { λ config. new_server config.window };

    ghost numbered = { λ _. 1 };

    ghost hands_back = { record {
      fed = λ s leg piece. refl;
      drawn = λ s leg room. tt;
      given = λ s block. refl;
      taken = λ s room. tt;
    } };

    fn number(_config: &ServerConfig) -> u32 {
        1
    }

    fn make(alloc: Global, config: &ServerConfig) -> Result<Boxed<Server>, AllocError> {
        Ok(Boxed::new(alloc, Server::new(alloc, *config)?)?)
    }
}

impl Machine for InProxyNode {
    ghost use Rattle.std.specs.Prelude.{Some};
    ghost use Rattle.rh_inproxy.specs.Machine.{rules};
    ghost use Rattle.rh_inproxy.specs.State.{no_cookie};
    ghost use Rattle.rh_machines.specs.Machines.{next as next_by, replied};

    type State = Boxed<InProxy>;

    type Event = NodeEvent;

    type Reply = NodeReply;

    ghost next = { next_by rules (λ _. no_cookie) };

    ghost reply = { replied rules (λ role. Some role.target) };

    fn act(state: &mut Boxed<InProxy>, event: NodeEvent) -> NodeReply {
        let node = &mut *state.inner;
        shared!(node, event, (leg, _cookie) => node.up(leg), told(node.target()))
    }
}

impl Node for InProxyNode {
    ghost use Rattle.std.specs.Prelude.{refl};
    ghost use Rattle.rh_inproxy.specs.State.{IsConfig};
    ghost use Rattle.rh_inproxy.specs.Machine.{first_node};

    type Config = InProxyConfig;

    const ROLE: Role = Role::InProxy;

    ghost ROLE = { played.InProxy };

    ghost can_make = { IsConfig };

    ghost first = { first_node };

    ghost numbered = { λ config. config.number };

    ghost hands_back = { record {
      fed = λ s leg piece. refl;
      drawn = λ s leg room. tt;
      given = λ s block. tt;
      taken = λ s room. tt;
    } };

    fn number(config: &InProxyConfig) -> u32 {
        config.number
    }

    fn make(alloc: Global, config: &InProxyConfig) -> Result<Boxed<InProxy>, AllocError> {
        Ok(Boxed::new(alloc, InProxy::new(alloc, *config)?)?)
    }
}

impl Machine for OutProxyNode {
    ghost use Rattle.std.specs.Prelude.{Some};
    ghost use Rattle.rh_outproxy.specs.Machine.{rules};
    ghost use Rattle.rh_outproxy.specs.OutProxy.{server_of};
    ghost use Rattle.rh_rts.specs.declared.command.TheConstants.{NO_COOKIE};
    ghost use Rattle.rh_machines.specs.Machines.{next as next_by, replied};

    type State = Boxed<OutProxy>;

    type Event = NodeEvent;

    type Reply = NodeReply;

    ghost next = { next_by rules (λ _. NO_COOKIE) };

    ghost reply = { replied rules (λ role. Some (server_of role.request)) };

    fn act(state: &mut Boxed<OutProxy>, event: NodeEvent) -> NodeReply {
        let node = &mut *state.inner;
        shared!(node, event, (leg, _cookie) => node.up(leg), told(node.target()))
    }
}

impl Node for OutProxyNode {
    ghost use Rattle.std.specs.Prelude.{◌≤◌, refl};
    ghost use Rattle.rh_sig.specs.Values.{IsLifetime, IsTimeout};
    ghost use Rattle.rh_window.specs.Sides.{IsWindow};
    ghost use Rattle.rh_shell.specs.Shells.{begun};
    ghost use Rattle.rh_outproxy.specs.declared.out_proxy.TheConstants.{ROOMS};
    ghost use Rattle.rh_outproxy.specs.OutProxy.{new_proxy};

    type Config = OutProxyConfig;

    const ROLE: Role = Role::OutProxy;

    ghost ROLE = { played.OutProxy };

    ghost can_make = { λ config. (1 ≤ config.number) × IsWindow config.window
        × IsLifetime config.lifetime × IsTimeout config.timeout };

    ghost first = { λ config. begun (new_proxy config) ROOMS };

    ghost numbered = { λ config. config.number };

    ghost hands_back = { record {
      fed = λ s leg piece. refl;
      drawn = λ s leg room. tt;
      given = λ s block. tt;
      taken = λ s room. tt;
    } };

    fn number(config: &OutProxyConfig) -> u32 {
        config.number
    }

    fn make(alloc: Global, config: &OutProxyConfig) -> Result<Boxed<OutProxy>, AllocError> {
        Ok(Boxed::new(alloc, OutProxy::new(alloc, *config)?)?)
    }
}
