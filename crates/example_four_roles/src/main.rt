//! A client, an in proxy, an out proxy and a server in one program, over no sockets: a virtual
//! connection is opened, a PDU goes each way, the IN channel is replaced, and both ends end in order.
#![tactic(auto)]

use rh_client::{Client, ClientConfig};
use rh_http::Host;
use rh_inproxy::{InProxy, InProxyConfig};
use rh_line::{Leg, LegKind, State, Take};
use rh_outproxy::{OutProxy, OutProxyConfig};
use rh_rts::Cookie;
use rh_server::{Server, ServerConfig};
use std::alloc::Global;
use std::io;

/// A request of the call 1 without a stub (C706 12.6.4). The server gives it back.
const PDU: &[u8] = b"\x05\0\0\x03\x10\0\0\0\x18\0\0\0\x01\0\0\0\0\0\0\0\0\0\0\0";

/// What a role puts on a leg goes to the other one, and so does the end of the leg.
macro_rules! carry {
    ($from:expr => $to:expr, $leg:expr) => {
        let mut room = [0; 4096];
        let count = $from.draw($leg, &mut room);
        let _ = $to.bytes($leg, &room[..count]);
        if $from.finished($leg) {
            let _ = $to.ended($leg);
        }
    };
}

/// Where the near role wants the leg and the far one may have it, it comes up; and it is carried.
macro_rules! link {
    ($near:expr => $far:expr, $kind:ident $number:expr $(, $cookie:expr)?) => {
        let leg = Leg { kind: LegKind::$kind, number: $number };
        if $near.wants(leg) && $far.may_up(leg) {
            $near.up(leg $(, $cookie)?);
            $far.up(leg);
        }
        carry!($near => $far, leg);
        carry!($far => $near, leg);
    };
}

/// A virtual connection: a client, its proxies and a server.
#[derive(Drop)]
struct Connection {
    client: Client,
    in_proxy: InProxy,
    out_proxy: OutProxy,
    server: Server,
}

impl Connection {
    /// Before the first leg is up. `None` for want of memory.
    fn new(alloc: Global) -> Option<Connection> {
        let (server, proxy) = (Host::new(b"server").ok()?, Host::new(b"proxy").ok()?);
        let client = ClientConfig::new(Cookie([1; 16]), Cookie([2; 16]), server, 593, proxy);
        Some(Connection {
            client: Client::new(alloc, client).ok()?,
            in_proxy: InProxy::new(alloc, InProxyConfig::new(1, [127, 0, 0, 1])).ok()?,
            out_proxy: OutProxy::new(alloc, OutProxyConfig::new(1)).ok()?,
            server: Server::new(alloc, ServerConfig::new()).ok()?,
        })
    }

    fn client_out(&mut self, cookie: Cookie) {
        link!(self.client => self.out_proxy, ClientOut 1, cookie);
    }

    fn out_server(&mut self) {
        link!(self.out_proxy => self.server, OutServer 1);
    }

    fn client_in(&mut self, number: u32, cookie: Cookie) {
        link!(self.client => self.in_proxy, ClientIn number, cookie);
    }

    fn in_server(&mut self) {
        link!(self.in_proxy => self.server, InServer 1);
    }

    /// Lets all legs have 16 rounds. Over a network the cookies of channels are random.
    fn settle(&mut self) {
        for _ in 0..16u8 {
            self.client_out(Cookie([3; 16]));
            self.out_server();
            self.client_in(1, Cookie([4; 16]));
            self.client_in(2, Cookie([5; 16]));
            self.in_server();
        }
    }

    /// The client gives a PDU; whether the server takes it.
    fn passes_up(&mut self) -> bool {
        let _ = self.client.give(PDU);
        self.settle();
        matches!(self.server.take(&mut [0; 8192]), Take::Pdu(_))
    }

    /// The server gives a PDU; whether the client takes it.
    fn passes_down(&mut self) -> bool {
        let _ = self.server.give(PDU);
        self.settle();
        matches!(self.client.take(&mut [0; 8192]), Take::Pdu(_))
    }
}

/// Runs a connection, and tells what came of it. `None` for want of memory.
fn run(alloc: Global) -> Option<[bool; 6]> {
    let mut all = Connection::new(alloc)?;
    all.settle();
    let is_open = matches!(all.client.state(), State::Open);
    let up = all.passes_up();
    let down = all.passes_down();
    let _ = all.client.recycle_in();
    let again = all.passes_up();
    let is_new = all.client.channels().0 == 2;
    all.client.close();
    all.server.close();
    all.settle();
    let states = (all.client.state(), all.server.state());
    let ended = matches!(states, (State::Ended, State::Ended));
    Some([is_open, up, down, again, is_new, ended])
}

fn main(rt: HostRuntime) -> io::Result<()> {
    let Some(answers) = run(rt.alloc()) else {
        return println!(rt; "no memory");
    };
    let [is_open, up, down, again, is_new, ended] = answers;
    println!(rt; "is the client open: {is_open}")?;
    println!(rt; "does the server take the client's PDU: {up}")?;
    println!(rt; "does the client take the server's PDU: {down}")?;
    println!(rt; "does the server take another one, behind a new IN channel: {again}")?;
    println!(rt; "does the client write on ci2: {is_new}")?;
    println!(rt; "have both ends ended: {ended}")
}
