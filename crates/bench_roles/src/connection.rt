//! A virtual connection of four roles in memory.

ghost use Rattle.rh_pdu.specs.Frames.{IsPdu};

use crate::nodes::{carry, cookie, made_client, made_in_proxy, made_out_proxy, made_server};
use rh_client::Client;
use rh_inproxy::InProxy;
use rh_line::{Leg, LegKind, State, Take};
use rh_outproxy::OutProxy;
use rh_server::Server;
use std::alloc::Global;

/// A direction.
#[derive(Clone, Copy)]
pub(crate) enum Way {
    Up,
    Down,
}

/// The legs of the first channels.
const CO: Leg = Leg {
    kind: LegKind::ClientOut,
    number: 1,
};

const OS: Leg = Leg {
    kind: LegKind::OutServer,
    number: 1,
};

const CI: Leg = Leg {
    kind: LegKind::ClientIn,
    number: 1,
};

const IS: Leg = Leg {
    kind: LegKind::InServer,
    number: 1,
};

/// How many turns opening takes at most.
const TURNS_TO_OPEN: u8 = 8;

/// How many turns one after the other may bring nothing: acknowledgements go in them.
const MOST_IDLE: u8 = 4;

/// A client and a server, joined by an in proxy and an out proxy.
#[derive(Drop)]
pub(crate) struct Connection {
    client: Client,
    in_proxy: InProxy,
    out_proxy: OutProxy,
    server: Server,
}

impl Connection {
    /// A connection that is open.
    pub(crate) fn opened(alloc: Global) -> Option<Connection> {
        let mut connection = Connection {
            client: made_client(alloc)?,
            in_proxy: made_in_proxy(alloc)?,
            out_proxy: made_out_proxy(alloc)?,
            server: made_server(alloc)?,
        };
        connection.begin();
        for _ in 0..TURNS_TO_OPEN {
            connection.turn();
            connection.connect();
        }
        connection.is_open().then_some(connection)
    }

    /// The client's legs come up.
    fn begin(&mut self) {
        self.client.up(CO, cookie(3));
        self.out_proxy.up(CO);
        self.client.up(CI, cookie(4));
        self.in_proxy.up(CI);
    }

    /// The legs come up that the proxies want.
    fn connect(&mut self) {
        if self.out_proxy.wants(OS) && self.server.may_up(OS) {
            self.out_proxy.up(OS);
            self.server.up(OS);
        }
        if self.in_proxy.wants(IS) && self.server.may_up(IS) {
            self.in_proxy.up(IS);
            self.server.up(IS);
        }
    }

    fn is_open(&self) -> bool {
        self.client.state() == State::Open && self.server.state() == State::Open
    }

    /// All that the nodes put on their legs goes over them, upwards first.
    fn turn(&mut self) {
        self.turn_up();
        self.turn_down();
    }

    fn turn_up(&mut self) {
        carry(&mut self.client, &mut self.out_proxy, CO);
        carry(&mut self.out_proxy, &mut self.server, OS);
        carry(&mut self.client, &mut self.in_proxy, CI);
        carry(&mut self.in_proxy, &mut self.server, IS);
    }

    fn turn_down(&mut self) {
        carry(&mut self.server, &mut self.in_proxy, IS);
        carry(&mut self.in_proxy, &mut self.client, CI);
        carry(&mut self.server, &mut self.out_proxy, OS);
        carry(&mut self.out_proxy, &mut self.client, CO);
    }

    /// Gives the PDU at the end that gives that way; whether it was accepted.
    fn give(&mut self, way: Way, pdu: &[u8]) -> bool {
        match way {
            Way::Up => self.client.give(pdu).is_ok(),
            Way::Down => self.server.give(pdu).is_ok(),
        }
    }

    /// Takes the next PDU at the other end, and answers its length.
    fn take(&mut self, way: Way, room: &mut [u8; 8192]) -> Option<u16> {
        let taken = match way {
            Way::Up => self.server.take(room),
            Way::Down => self.client.take(room),
        };
        match taken {
            Take::Pdu(len) => Some(len),
            Take::Empty | Take::Ended | Take::Closed(_) => None,
        }
    }

    /// Takes all that is there, and answers how many bytes that are.
    fn take_all(&mut self, way: Way, room: &mut [u8; 8192]) -> u64 {
        let mut taken: u64 = 0;
        for _ in 0..u16::MAX {
            let Some(len) = self.take(way, room) else {
                return taken;
            };
            taken = taken.saturating_add(u64::from(len));
        }
        taken
    }

    /// Gives the PDU as often as it is accepted, at most so often, and answers how often it wasn't.
    fn give_all(&mut self, way: Way, pdu: &[u8], most: u64) -> u64 {
        for given in 0..most {
            if !self.give(way, pdu) {
                return most - given;
            }
        }
        0
    }

    /// Gives the PDU as often as so many bytes hold it, and answers how many bytes came out: `None`
    /// where nothing goes on.
    pub(crate) fn pass(&mut self, way: Way, pdu: &[u8], most: u64) -> Option<u64> {
        let len = pdu.len() as u64;
        let mut left = most.checked_div(len)?;
        let all = left.checked_mul(len)?;
        let mut room = [0; 8192];
        let mut taken: u64 = 0;
        let mut idle: u8 = 0;
        for _ in 0..most {
            left = self.give_all(way, pdu, left);
            self.turn();
            let came = self.take_all(way, &mut room);
            taken = taken.saturating_add(came);
            idle = if came == 0 { idle.saturating_add(1) } else { 0 };
            if taken == all || idle == MOST_IDLE {
                break;
            }
        }
        (taken == all).then_some(taken)
    }
}
