//! Proxies of one kind, by their numbers.

ghost use Rattle.std.specs.Prelude.{◌≡◌, ◌≤◌, ◌<◌, ◌^◌, ℕ, [], true, false, length, take, drop, IsTrue, OnOk, IfOk, get_or};
ghost use Rattle.rh_wires.specs.Numbered.{ask, act, change, put_at};
ghost use Rattle.rh_company.specs.Places as seen;
ghost use Rattle.rh_company.specs.declared.place.Place.TheVariants.{Absent, Here};

use crate::event::Event;
use crate::place::Place;
use rh_line::{Cause, Leg};
use rh_rts::Cookie;
use rh_shell::{Role, Shell};
use rh_wires::{grow, skip_idle};
use std::alloc::{AllocError, Global};
use std::marker::Model;

/// The places of proxies, each at its number. Numbers are from 1; none is ever at 0.
///
/// A proxy is found by its number at once. Behind the first place that isn't idle no further one is
/// looked for, so that proxies which were let go cost nothing.
#[derive(Drop)]
pub struct Places<R> {
    list: Vec<Place<R>>,
    /// All places before this one are idle.
    first: usize,
}

impl<R> Model for Places<R> {
    ghost use Rattle.std.specs.Prelude.{◌≤◌, ◌^◌, List, vec_len};
    ghost use Rattle.rh_wires.specs.Numbered.{AreIdle};
    ghost use Rattle.rh_company.specs.declared.place.Place.{Place};
    ghost use Rattle.rh_company.specs.declared.place.Place.TheVariants.{Absent};
    ghost use Rattle.rh_company.specs.Places.{is_idle};

    ghost Value = { List (Place R) };

    ghost view = { λ a. a.list.items };

    ghost invariant = { λ a. AreIdle is_idle Absent a.first a.list.items
        × (vec_len a.list ≤ 2 ^ 32) };
}

impl<R: Role> Places<R> {
    /// No proxies.
    pub fn new(alloc: Global) -> Places<R>
        ensures { result ≡ [] }
    {
        Places {
            list: Vec::new(alloc),
            first: 0,
        }
    }

    /// One above the greatest number that was used.
    pub fn len(&self) -> u64
        ensures len { result ≡ length self.entry.now }
        ensures most { result ≤ 2 ^ 32 }
    {
        self.list.len() as u64
    }

    /// The number of the first place that isn't idle, or one above the greatest that was used. Each
    /// place that is idle for good is looked at once: the search begins where the last one ended, or
    /// at a place that changed since.
    pub fn first(&mut self) -> u64
        ensures same { self.new ≡ self.old }
        ensures idle { (k : ℕ) → k < result → IsTrue (seen.is_idle (get_or self.old k Absent)) }
        ensures within { result ≤ length self.old }
        ensures stands { result < length self.old
            → seen.is_idle (get_or self.old result Absent) ≡ false }
    {
        skip_idle(&self.list, &mut self.first);
        self.first.min(self.list.len()) as u64
    }

    /// Whether no proxy of this number was made.
    pub fn is_absent(&self, number: u32) -> bool
        ensures { result ≡ ask seen.is_absent true self.entry.now number }
    {
        let at = number as usize;
        if at < self.list.len() {
            self.list[at].is_absent()
        } else {
            true
        }
    }

    /// The last moment of a proxy, in milliseconds.
    pub(crate) fn now(&self, number: u32) -> Option<u64>
        ensures { result ≡ ask seen.last_moment None self.entry.now number }
    {
        let at = number as usize;
        if at < self.list.len() {
            self.list[at].now()
        } else {
            None
        }
    }

    /// Whether a proxy asks for the leg to be connected.
    pub(crate) fn wants(&self, number: u32, leg: Leg) -> bool
        ensures { result ≡ ask (seen.wants R.rules leg) false self.entry.now number }
    {
        let at = number as usize;
        if at < self.list.len() {
            self.list[at].wants(leg)
        } else {
            false
        }
    }

    /// Whether a proxy may have the leg up.
    pub(crate) fn may_up(&self, number: u32, leg: Leg) -> bool
        ensures { result ≡ ask (seen.may_up R.rules leg) false self.entry.now number }
    {
        let at = number as usize;
        if at < self.list.len() {
            self.list[at].may_up(leg)
        } else {
            false
        }
    }

    /// Whether a proxy has no use for the leg any more, and nothing left to draw.
    pub(crate) fn finished(&self, number: u32, leg: Leg) -> bool
        ensures { result ≡ ask (seen.finished R.rules leg) false self.entry.now number }
    {
        let at = number as usize;
        if at < self.list.len() {
            self.list[at].finished(leg)
        } else {
            false
        }
    }

    /// A proxy is made, which has no leg up yet. Fails where there is no memory.
    pub fn make(&mut self, number: u32, node: Shell<R>) -> Result<(), AllocError>
        ensures { OnOk result (self.new ≡ put_at Absent self.old number (Here node 0)) }
    {
        let at = number as usize;
        grow(&mut self.list, at + 1)?;
        self.first = self.first.min(at);
        self.list[at] = Place::Here { node, legs: 0 };
        Ok(())
    }

    /// The leg is up for a proxy.
    pub(crate) fn up(&mut self, number: u32, leg: Leg, cookie: Cookie)
        ensures { self.new ≡ change (seen.up R.rules leg cookie) self.old number }
    {
        let at = number as usize;
        if at < self.list.len() {
            self.first = self.first.min(at);
            self.list[at].up(leg, cookie);
        }
    }

    /// Tells a proxy something, and answers the cause with which that closed it.
    pub(crate) fn tell(&mut self, number: u32, event: &Event) -> Option<Cause>
        ensures { (self.new, result) ≡ act (seen.tell R.rules event.now) None self.old number }
    {
        let at = number as usize;
        if at < self.list.len() {
            self.first = self.first.min(at);
            self.list[at].tell(event)
        } else {
            None
        }
    }

    /// A leg is not up for a proxy any more.
    pub(crate) fn leave(&mut self, number: u32)
        ensures { self.new ≡ change (seen.leave R.rules) self.old number }
    {
        let at = number as usize;
        if at < self.list.len() {
            self.first = self.first.min(at);
            self.list[at].leave();
        }
    }

    /// Draws the next bytes that a proxy puts on the leg into the front of the room, and answers
    /// how many.
    pub(crate) fn draw(&mut self, number: u32, leg: Leg, room: &mut [u8]) -> usize
        ensures drawn { (self.new, take result room.new)
            ≡ act (seen.draw R.rules leg (length room.old)) [] self.old number }
        ensures fits { result ≤ length room.old }
    {
        let at = number as usize;
        if at < self.list.len() {
            self.first = self.first.min(at);
            self.list[at].draw(leg, room)
        } else {
            0
        }
    }
}
