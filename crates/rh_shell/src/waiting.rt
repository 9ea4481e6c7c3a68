//! The packets that wait on a leg or on a line, with the rooms that bound them (profile).

ghost use Rattle.std.specs.Prelude.{◌≡◌, find, position};
ghost use Rattle.rh_shell.specs.Waiting.{count, takes};

use crate::due::{Due, Origin};
use rh_sig::Named;
use std::alloc::{AllocError, Global};
use std::marker::Model;

/// The most packets to be forwarded that wait for a leg (profile).
pub const FORWARDED_ROOM: u8 = 16;
/// The most packets of a role's own that wait for a leg (profile).
pub const OWN_ROOM: usize = 8;

/// What lets a packet that waits go now, or refuses it, as the meter of its channel does.
pub trait Gate {
    ghost use Rattle.std.specs.Prelude.{◌≡◌, Bool};
    ghost use Rattle.rh_shell.specs.declared.due.Due.{Due};

    ghost lets: { Self → Due → Bool };

    /// Whether the packet may go now.
    fn may_go(&self, due: &Due) -> bool
        ensures { result ≡ lets self.now due.now };
}

/// Packets in the order in which they became due, each the role's own or to be forwarded.
///
/// An acknowledgement that is to be forwarded is merged with one that waits for the same channel at
/// the same destination. A packet that was taken waits no more, so nothing is merged with it.
#[derive(Drop)]
pub struct Waiting {
    due: Vec<Due>,
    room: u8,
}

impl Model for Waiting {
    ghost use Rattle.std.specs.Prelude.{◌+◌, ◌≤◌, vec_capacity};
    ghost use Rattle.rh_shell.specs.declared.waiting.TheConstants.{OWN_ROOM};
    ghost use Rattle.rh_shell.specs.Waiting as seen;

    ghost Value = { seen.Waiting };

    ghost view = { λ w. record { room = w.room; due = w.due.items } };

    ghost invariant = { λ w. seen.IsKept w.room w.due.items
        × (w.room + OWN_ROOM ≤ vec_capacity w.due) };
}

impl Waiting {
    ghost use Rattle.std.specs.Prelude.{◌≡◌, ◌<◌, IfOk, IfSome, [], ◌==◌, length, nat_le};
    ghost use Rattle.rh_sig.specs.Values.{MayBeWritten};
    ghost use Rattle.rh_shell.specs.declared.due.Origin.TheVariants.{Own, Forwarded};
    ghost use Rattle.rh_shell.specs.Waiting.{empty, room_of, pushed, added, forwarded};
    ghost use Rattle.rh_shell.specs.Waiting.{taken, with_due};

    /// No packet, with room for so many that are to be forwarded, and for `OWN_ROOM` of the role's
    /// own. No other call takes memory.
    ///
    /// Fails only for want of memory.
    pub fn new(alloc: Global, forwarded_room: u8) -> Result<Waiting, AllocError>
        ensures { IfOk result (λ waiting. waiting ≡ empty forwarded_room) }
    {
        Ok(Waiting {
            due: Vec::with_capacity(alloc, usize::from(forwarded_room) + OWN_ROOM)?,
            room: forwarded_room,
        })
    }

    /// Whether no packet waits.
    pub fn is_empty(&self) -> bool
        ensures { result ≡ (length self.now.due == 0) }
    {
        self.due.is_empty()
    }

    /// How many wait that came from there.
    pub fn count(&self, origin: Origin) -> usize
        ensures { result ≡ count origin self.now.due }
    {
        count(&self.due, origin)
    }

    /// The first packet that may go now; `None` where none may. It goes on waiting.
    pub fn first_fit<G: Gate>(&self, gate: &G) -> Option<Due>
        ensures first { result ≡ find (G.lets gate.now) self.now.due }
        ensures writable { IfSome result (λ due. MayBeWritten due.packet) }
    {
        let place = place_to_go(&self.due, gate)?;
        Some(self.due[place])
    }

    /// A packet of the role's own becomes due, behind all that wait. Fewer than `OWN_ROOM` of the
    /// role's own wait before.
    pub fn add(&mut self, packet: Named)
        requires writable { MayBeWritten packet }
        requires room { count Own self.old.due < OWN_ROOM }
        ensures { self.new ≡ added self.old packet }
    {
        self.push(Due {
            packet,
            origin: Origin::Own,
        });
    }

    /// A packet is to be forwarded. It is merged with the first that takes it, in its place, or
    /// stands behind all that wait.
    ///
    /// Answers false, and changes nothing, exactly where it can be merged with none and the room
    /// for those to be forwarded is full.
    pub fn forward(&mut self, packet: Named) -> bool
        requires { MayBeWritten packet }
        ensures { (self.new, result) ≡ forwarded self.old packet }
    {
        if let Some(place) = place_to_merge(&self.due, &packet) {
            self.due[place] = self.due[place].better(packet);
            return true;
        }
        if self.is_full() {
            return false;
        }
        self.push(Due {
            packet,
            origin: Origin::Forwarded,
        });
        true
    }

    /// Whether no more may wait that are to be forwarded.
    fn is_full(&self) -> bool
        ensures { result ≡ nat_le self.now.room (count Forwarded self.now.due) }
    {
        count(&self.due, Origin::Forwarded) >= usize::from(self.room)
    }

    /// Takes the first packet that may go now; `None` where none may. Those that it passes by go on
    /// waiting, in their order.
    pub fn take<G: Gate>(&mut self, gate: &G) -> Option<Due>
        ensures taken { (self.new, result) ≡ taken (G.lets gate.now) self.old }
        ensures writable { IfSome result (λ due. MayBeWritten due.packet) }
    {
        let place = place_to_go(&self.due, gate)?;
        Some(self.due.remove(place))
    }

    /// Drops all that wait.
    pub fn clear(&mut self)
        ensures { self.new ≡ with_due self.old [] }
    {
        self.due.clear();
    }

    /// Puts a packet behind all that wait.
    fn push(&mut self, due: Due)
        requires writable { MayBeWritten due.packet }
        requires room { count due.origin self.old.due < room_of due.origin self.old }
        ensures { self.new ≡ pushed self.old due }
    {
        let Ok(()) = self.due.push(due) else {
            unreachable!()
        };
    }
}

/// How many came from there.
fn count(due: &[Due], origin: Origin) -> usize
    ensures { result ≡ count origin due.now }
{
    due.iter().filter(|one| one.is_of(origin)).count()
}

/// How many stand before the first acknowledgement that takes the packet.
fn place_to_merge(due: &[Due], packet: &Named) -> Option<usize>
    ensures { result ≡ position (takes packet.now) due.now }
{
    due.iter().position(|older| older.takes(packet))
}

/// How many stand before the first that may go.
fn place_to_go<G: Gate>(due: &[Due], gate: &G) -> Option<usize>
    ensures { result ≡ position (G.lets gate.now) due.now }
{
    due.iter().position(|one| gate.may_go(one))
}
