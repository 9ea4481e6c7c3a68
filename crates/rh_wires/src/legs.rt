//! All legs of the virtual connection.

ghost use Rattle.std.specs.Prelude.{◌≡◌, ◌≤◌, ◌<◌, ◌^◌, ℕ, false, length, get_or, IsTrue, IfOk, OnOk};
ghost use Rattle.rh_wires.specs.Wires.{blank, is_low};
ghost use Rattle.rh_wires.specs.Legs as seen;

use crate::wires::Wires;
use rh_line::{Leg, LegKind};
use rh_text::{Bytes, Dir, Side};
use std::alloc::{AllocError, Global};

/// The legs of each kind.
#[derive(Drop)]
pub struct Legs {
    pub(crate) client_out: Wires,
    pub(crate) out_server: Wires,
    pub(crate) client_in: Wires,
    pub(crate) in_server: Wires,
}

impl Legs {
    /// No legs.
    pub fn new(alloc: Global) -> Legs
        ensures { result ≡ seen.none }
    {
        Legs {
            client_out: Wires::new(alloc),
            out_server: Wires::new(alloc),
            client_in: Wires::new(alloc),
            in_server: Wires::new(alloc),
        }
    }

    /// The legs of a kind.
    fn of(&self, kind: LegKind) -> &Wires
        ensures { result.now ≡ seen.of kind self.now }
    {
        match kind {
            LegKind::ClientOut => &self.client_out,
            LegKind::OutServer => &self.out_server,
            LegKind::ClientIn => &self.client_in,
            LegKind::InServer => &self.in_server,
        }
    }

    /// One above the greatest number of a leg of the kind.
    pub fn len(&self, kind: LegKind) -> u64
        ensures len { result ≡ length (seen.of kind self.now) }
        ensures most { result ≤ 2 ^ 32 }
    {
        self.of(kind).len()
    }

    /// The number of the first leg of the kind that isn't down for both ends, or one above the
    /// greatest that was used. Each leg that is over for good is looked at once.
    pub fn first(&mut self, kind: LegKind) -> u64
        ensures same { self.new ≡ self.old }
        ensures down { (k : ℕ) → k < result
            → IsTrue (is_low (get_or (seen.of kind self.old) k blank)) }
        ensures within { result ≤ length (seen.of kind self.old) }
        ensures stands { result < length (seen.of kind self.old)
            → is_low (get_or (seen.of kind self.old) result blank) ≡ false }
    {
        match kind {
            LegKind::ClientOut => self.client_out.first(),
            LegKind::OutServer => self.out_server.first(),
            LegKind::ClientIn => self.client_in.first(),
            LegKind::InServer => self.in_server.first(),
        }
    }

    /// Whether the leg is up for an end.
    pub fn is_up(&self, leg: Leg, side: Side) -> bool
        ensures { result ≡ seen.is_up leg side self.now }
    {
        self.of(leg.kind).is_up(leg.number, side)
    }

    /// Whether nothing is in flight on the leg in a direction.
    pub fn is_clear(&self, leg: Leg, dir: Dir) -> bool
        ensures { result ≡ seen.is_clear leg dir self.now }
    {
        self.of(leg.kind).is_clear(leg.number, dir)
    }

    /// Puts bytes into flight on the leg. Fails where there is no memory.
    pub fn put(&mut self, alloc: Global, leg: Leg, dir: Dir, bytes: &[u8]) -> Result<(), AllocError>
        ensures { OnOk result (self.new ≡ seen.put leg dir bytes.now self.old) }
    {
        match leg.kind {
            LegKind::ClientOut => self.client_out.put(alloc, leg.number, dir, bytes),
            LegKind::OutServer => self.out_server.put(alloc, leg.number, dir, bytes),
            LegKind::ClientIn => self.client_in.put(alloc, leg.number, dir, bytes),
            LegKind::InServer => self.in_server.put(alloc, leg.number, dir, bytes),
        }
    }

    /// Takes the first bytes out of flight on the leg: `count` of them, or all where there are
    /// fewer. Fails where there is no memory for a list of them.
    pub fn take(
        &mut self,
        alloc: Global,
        leg: Leg,
        dir: Dir,
        count: usize,
    ) -> Result<Bytes, AllocError>
        ensures { IfOk result (λ bytes.
            (self.new, bytes) ≡ seen.take_out leg dir count self.old) }
    {
        match leg.kind {
            LegKind::ClientOut => self.client_out.take(alloc, leg.number, dir, count),
            LegKind::OutServer => self.out_server.take(alloc, leg.number, dir, count),
            LegKind::ClientIn => self.client_in.take(alloc, leg.number, dir, count),
            LegKind::InServer => self.in_server.take(alloc, leg.number, dir, count),
        }
    }

    /// The leg is up for an end. Fails where there is no memory.
    pub fn raise(&mut self, leg: Leg, side: Side) -> Result<(), AllocError>
        ensures { OnOk result (self.new ≡ seen.raise leg side self.old) }
    {
        match leg.kind {
            LegKind::ClientOut => self.client_out.raise(leg.number, side),
            LegKind::OutServer => self.out_server.raise(leg.number, side),
            LegKind::ClientIn => self.client_in.raise(leg.number, side),
            LegKind::InServer => self.in_server.raise(leg.number, side),
        }
    }

    /// The leg is not up for an end any more. Where it is up for neither, what was in flight is
    /// lost.
    pub fn lower(&mut self, leg: Leg, side: Side)
        ensures { self.new ≡ seen.lower leg side self.old }
    {
        match leg.kind {
            LegKind::ClientOut => self.client_out.lower(leg.number, side),
            LegKind::OutServer => self.out_server.lower(leg.number, side),
            LegKind::ClientIn => self.client_in.lower(leg.number, side),
            LegKind::InServer => self.in_server.lower(leg.number, side),
        }
    }
}
