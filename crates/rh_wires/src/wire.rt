//! One leg between its two ends.

ghost use Rattle.std.specs.Prelude.{◌≡◌, IfOk, OnOk};
ghost use Rattle.rh_wires.specs.Wires as seen;

use crate::flight::Flight;
use crate::numbered::Item;
use rh_text::{Bytes, Dir, Side};
use std::alloc::{AllocError, Global};

/// A leg: the ends for which it is up, and the bytes in flight. An end of a leg is named by the end
/// of the virtual connection to which it is nearer.
#[derive(Drop)]
pub struct Wire {
    /// Whether the leg is up for its end at the client's side.
    pub(crate) client: bool,
    /// Whether the leg is up for its end at the server's side.
    pub(crate) server: bool,
    pub(crate) up: Flight,
    pub(crate) down: Flight,
}

/// The end that puts what goes in this direction.
pub fn sender(dir: Dir) -> Side
    ensures { result ≡ seen.sender dir }
{
    match dir {
        Dir::U => Side::Client,
        Dir::D => Side::Server,
    }
}

/// The end that takes what goes in this direction.
pub fn receiver(dir: Dir) -> Side
    ensures { result ≡ seen.receiver dir }
{
    match dir {
        Dir::U => Side::Server,
        Dir::D => Side::Client,
    }
}

impl Item for Wire {
    ghost use Rattle.rh_wires.specs.Wires as seen;

    ghost blank = { seen.blank };

    ghost is_idle = { seen.is_low };

    fn blank() -> Wire {
        Wire::new()
    }

    /// Whether the leg is down for both ends.
    fn is_idle(&self) -> bool {
        !(self.client || self.server)
    }
}

impl Wire {
    /// A leg that is down for both ends.
    pub(crate) fn new() -> Wire
        ensures { result ≡ seen.blank }
    {
        Wire {
            client: false,
            server: false,
            up: Flight::new(),
            down: Flight::new(),
        }
    }

    /// Whether the leg is up for an end.
    pub(crate) fn is_up(&self, side: Side) -> bool
        ensures { result ≡ seen.is_up side self.now }
    {
        match side {
            Side::Client => self.client,
            Side::Server => self.server,
        }
    }

    /// Whether nothing is in flight in a direction.
    pub(crate) fn is_clear(&self, dir: Dir) -> bool
        ensures { result ≡ seen.is_clear dir self.now }
    {
        match dir {
            Dir::U => self.up.is_empty(),
            Dir::D => self.down.is_empty(),
        }
    }

    /// Puts bytes into flight.
    pub(crate) fn put(&mut self, alloc: Global, dir: Dir, bytes: &[u8]) -> Result<(), AllocError>
        ensures { OnOk result (self.new ≡ seen.put dir bytes.now self.old) }
    {
        match dir {
            Dir::U => self.up.push(alloc, bytes),
            Dir::D => self.down.push(alloc, bytes),
        }
    }

    /// Takes the first bytes out of flight: `count` of them, or all where there are fewer.
    pub(crate) fn take(
        &mut self,
        alloc: Global,
        dir: Dir,
        count: usize,
    ) -> Result<Bytes, AllocError>
        ensures { IfOk result (λ bytes. (self.new, bytes) ≡ seen.take_out dir count self.old) }
    {
        match dir {
            Dir::U => self.up.take(alloc, count),
            Dir::D => self.down.take(alloc, count),
        }
    }

    /// The leg is up for an end.
    pub(crate) fn raise(&mut self, side: Side)
        ensures { self.new ≡ seen.raise side self.old }
    {
        match side {
            Side::Client => self.client = true,
            Side::Server => self.server = true,
        }
    }

    /// The leg is not up for an end any more. Where it is up for neither, what was in flight is
    /// lost.
    pub(crate) fn lower(&mut self, side: Side)
        ensures { self.new ≡ seen.lower side self.old }
    {
        let other = match side {
            Side::Client => self.server,
            Side::Server => self.client,
        };
        if !other {
            *self = Wire::new();
            return;
        }
        match side {
            Side::Client => self.client = false,
            Side::Server => self.server = false,
        }
    }
}
