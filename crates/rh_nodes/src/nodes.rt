//! The world of roles.
//!
//! # The theory of the world
//!
//! A world has the nodes of one virtual connection: its two ends, and a proxy for each leg that the
//! client opened. Between them are legs, each with the bytes in flight both ways. A leg is up for
//! each of its ends by itself; a line of a recording connects, breaks or ends it for both. A node
//! draws and is fed on a leg as long as it is up for it, and what was drawn at one end arrives at
//! the other in order, as much of it at a time as a line says. So the world is a function of its
//! lines: nothing happens by itself, and the moment is what a line says.
//!
//! Each line has one definition, which gives the world afterwards and what is answered
//! (`specs/Giving`, `Carrying`, `Opening`, `Breaking`, `Time`, `Settling`), and one method.
//! Settling is done in rounds, each of which is said as a list of such lines.
//!
//! What is of no more use costs nothing: a leg that is down has no memory, a proxy that ended or
//! closed is let go with its last leg, and neither is looked for again.

ghost use Rattle.std.specs.Prelude.{◌≡◌, ◌≤◌, ◌+◌, ◌<◌, ◌^◌, IfOk, OnOk};
ghost use Rattle.rh_company.specs.Company.{rules_of};
ghost use Rattle.rh_nodes.specs.World as seen;

use rh_company::{Cast, Closings, Company, Cookies, Event, Places, cookie_of};
use rh_line::{Leg, LegKind};
use rh_pdu::header::GREATEST_FRAG;
use rh_record::{Side, Who};
use rh_wires::{Counts, Legs, Readers};
use std::alloc::{AllocError, Global};
use std::marker::Model;

/// The nodes of a virtual connection with its legs, driven line by line. After want of memory they
/// may only be dropped.
#[derive(Drop)]
pub struct Nodes<K: Cast> {
    pub(crate) cast: K,
    pub(crate) company: Company<K>,
    pub(crate) legs: Legs,
    pub(crate) readers: Readers,
    pub(crate) cookies: Cookies,
    pub(crate) now: u64,
    pub(crate) up: Counts,
    pub(crate) down: Counts,
    /// Whether a take at the client was answered Ended.
    pub(crate) client_ended: bool,
    /// Whether a take at the server was answered Ended.
    pub(crate) server_ended: bool,
    /// Whether settling opens an IN successor at the proxy of its predecessor, where it may.
    pub(crate) same: bool,
    pub(crate) closed: Closings,
    /// Where bytes are drawn before they go into flight.
    pub(crate) room: Vec<u8>,
    /// Where a PDU is put that is taken.
    pub(crate) taken: [u8; GREATEST_FRAG],
}

impl<K: Cast> Model for Nodes<K> {
    ghost use Rattle.rh_nodes.specs.World as seen;

    ghost Value = { seen.World K K.Client K.Server K.InProxy K.OutProxy };

    ghost view = { λ a. record {
      cast = a.cast;
      company = a.company;
      legs = a.legs;
      readers = a.readers;
      cookies = a.cookies;
      now = a.now;
      up = a.up;
      down = a.down;
      client_ended = a.client_ended;
      server_ended = a.server_ended;
      same = a.same;
      closed = a.closed;
    } };
}

/// The node at an end of a leg, where this proxy reads it.
fn node_at(reader: u32, leg: Leg, side: Side) -> Who
    ensures { result ≡ seen.node_at reader leg side }
{
    match (leg.kind, side) {
        (LegKind::ClientOut, Side::Client) => Who::Client,
        (LegKind::ClientOut, Side::Server) => Who::Out(leg.number),
        (LegKind::OutServer, Side::Client) => Who::Out(leg.number),
        (LegKind::OutServer, Side::Server) => Who::Server,
        (LegKind::ClientIn, Side::Client) => Who::Client,
        (LegKind::ClientIn, Side::Server) => Who::In(reader),
        (LegKind::InServer, Side::Client) => Who::In(leg.number),
        (LegKind::InServer, Side::Server) => Who::Server,
    }
}

impl<K: Cast> Nodes<K> {
    /// A client and a server with no legs. Cookies are numbers behind the base: those of the
    /// connection and the association group come first, and then those of the client's legs.
    /// `same` tells whether settling opens an IN successor at the proxy of its predecessor, where
    /// it may.
    pub fn new(alloc: Global, cast: K, base: u64, same: bool) -> Result<Nodes<K>, AllocError>
        requires { base + 3 < 2 ^ 64 }
        ensures { IfOk result (λ nodes. nodes ≡ seen.started K.client K.server cast base same) }
    {
        let client = cast.client(alloc, cookie_of(base + 1), cookie_of(base + 2))?;
        let server = cast.server(alloc)?;
        Ok(Nodes {
            cast,
            company: Company {
                client,
                server,
                ins: Places::new(alloc),
                outs: Places::new(alloc),
            },
            legs: Legs::new(alloc),
            readers: Readers::new(alloc),
            cookies: Cookies::new(alloc, base + 3),
            now: 0,
            up: Counts { given: 0, taken: 0 },
            down: Counts { given: 0, taken: 0 },
            client_ended: false,
            server_ended: false,
            same,
            closed: Closings::new(alloc),
            room: Vec::new(alloc),
            taken: [0; GREATEST_FRAG],
        })
    }

    /// The node at an end of a leg.
    pub(crate) fn at(&self, leg: Leg, side: Side) -> Who
        ensures { result ≡ seen.at self.entry.now leg side }
    {
        node_at(self.readers.of(leg.number), leg, side)
    }

    /// Tells a node something, and notes that it closed where it did.
    #[inline(always)]
    pub(crate) fn tell(&mut self, who: Who, event: &Event) -> Result<(), AllocError>
        ensures { OnOk result (self.new ≡ seen.tell
            (rules_of K.Client.rules K.Server.rules K.InProxy.rules K.OutProxy.rules)
            self.old who event.now) }
    {
        let closed = self.company.tell(who, event);
        self.closed.note(who, closed)
    }
}
