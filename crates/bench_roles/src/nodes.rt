//! The four nodes, as this program drives them.

use rh_client::{Client, ClientConfig};
use rh_http::Host;
use rh_inproxy::{InProxy, InProxyConfig};
use rh_line::Leg;
use rh_outproxy::{OutProxy, OutProxyConfig};
use rh_rts::Cookie;
use rh_server::{Server, ServerConfig};
use std::alloc::Global;

/// The window of each channel at each receiver, in bytes.
pub(crate) const WINDOW: u32 = 65_536;
/// The greatest lifetime of a channel, in bytes.
const LIFETIME: u32 = 2_147_483_648;
/// How long a leg may be silent, in milliseconds.
const TIMEOUT: u32 = 120_000;
/// The most bytes that go over a leg at once.
pub(crate) const PIECE: usize = 4096;

/// A cookie that is this number.
pub(crate) fn cookie(number: u8) -> Cookie {
    let mut bytes = [0; 16];
    bytes[15] = number;
    Cookie(bytes)
}

/// What puts bytes on its legs, and takes those that come.
pub(crate) trait Node {
    /// Draws bytes of a leg, and answers how many.
    fn draw_from(&mut self, leg: Leg, room: &mut [u8]) -> usize;

    /// Hears bytes on a leg.
    fn hear_on(&mut self, leg: Leg, piece: &[u8]);
}

impl Node for Client {
    fn draw_from(&mut self, leg: Leg, room: &mut [u8]) -> usize {
        self.draw(leg, room)
    }

    fn hear_on(&mut self, leg: Leg, piece: &[u8]) {
        let _ = self.bytes(leg, piece);
    }
}

impl Node for Server {
    fn draw_from(&mut self, leg: Leg, room: &mut [u8]) -> usize {
        self.draw(leg, room)
    }

    fn hear_on(&mut self, leg: Leg, piece: &[u8]) {
        let _ = self.bytes(leg, piece);
    }
}

impl Node for InProxy {
    fn draw_from(&mut self, leg: Leg, room: &mut [u8]) -> usize {
        self.draw(leg, room)
    }

    fn hear_on(&mut self, leg: Leg, piece: &[u8]) {
        let _ = self.bytes(leg, piece);
    }
}

impl Node for OutProxy {
    fn draw_from(&mut self, leg: Leg, room: &mut [u8]) -> usize {
        self.draw(leg, room)
    }

    fn hear_on(&mut self, leg: Leg, piece: &[u8]) {
        let _ = self.bytes(leg, piece);
    }
}

/// What a node puts on a leg goes to the other side, a piece at a time, until it puts no more.
pub(crate) fn carry<A: Node, B: Node>(from: &mut A, to: &mut B, leg: Leg) {
    let mut room = [0; PIECE];
    for _ in 0..WINDOW {
        let count = from.draw_from(leg, &mut room);
        if count == 0 {
            return;
        }
        let (piece, _) = room.split_at(count.min(PIECE));
        to.hear_on(leg, piece);
    }
}

pub(crate) fn made_client(alloc: Global) -> Option<Client> {
    let config = ClientConfig {
        connection: cookie(1),
        group: cookie(2),
        window: WINDOW,
        lifetime: LIFETIME,
        keepalive: 0,
        host: Host::new("server".as_bytes()).ok()?,
        port: 593,
        proxy_host: Host::new("proxy".as_bytes()).ok()?,
    };
    Client::new(alloc, config).ok()
}

pub(crate) fn made_in_proxy(alloc: Global) -> Option<InProxy> {
    let config = InProxyConfig {
        number: 1,
        window: WINDOW,
        timeout: TIMEOUT,
        address: [127, 0, 0, 1],
    };
    InProxy::new(alloc, config).ok()
}

pub(crate) fn made_out_proxy(alloc: Global) -> Option<OutProxy> {
    let config = OutProxyConfig {
        number: 1,
        window: WINDOW,
        lifetime: LIFETIME,
        timeout: TIMEOUT,
    };
    OutProxy::new(alloc, config).ok()
}

pub(crate) fn made_server(alloc: Global) -> Option<Server> {
    Server::new(alloc, ServerConfig { window: WINDOW }).ok()
}
