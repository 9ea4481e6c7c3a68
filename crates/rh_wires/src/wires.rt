//! Legs of one kind, by their numbers.

ghost use Rattle.std.specs.Prelude.{◌≡◌, ◌≤◌, ◌<◌, ◌+◌, ◌^◌, ℕ, [], true, false, length, IsTrue, IfOk, OnOk, get_or};
ghost use Rattle.rh_wires.specs.Numbered.{ask, act, change, grown};
ghost use Rattle.rh_wires.specs.Wires as seen;

use crate::numbered::{grow, skip_idle};
use crate::wire::Wire;
use rh_text::{Bytes, Dir, Side};
use std::alloc::{AllocError, Global};
use std::marker::Model;

/// Legs of one kind, each at its number. Numbers are from 1; none is ever at 0.
///
/// A leg is found by its number at once. No leg is looked for before the first one that is up.
#[derive(Drop)]
pub struct Wires {
    list: Vec<Wire>,
    /// All legs before this one are down for both ends.
    first: usize,
}

impl Model for Wires {
    ghost use Rattle.std.specs.Prelude.{◌≤◌, ◌^◌, List, vec_len};
    ghost use Rattle.rh_wires.specs.declared.wire.Wire.{Wire};
    ghost use Rattle.rh_wires.specs.Numbered.{AreIdle};
    ghost use Rattle.rh_wires.specs.Wires.{blank, is_low};

    ghost Value = { List Wire };

    ghost view = { λ a. a.list.items };

    ghost invariant = { λ a. AreIdle is_low blank a.first a.list.items
        × (vec_len a.list ≤ 2 ^ 32) };
}

impl Wires {
    /// No legs.
    pub(crate) fn new(alloc: Global) -> Wires
        ensures { result ≡ [] }
    {
        Wires {
            list: Vec::new(alloc),
            first: 0,
        }
    }

    /// One above the greatest number that was used.
    pub(crate) fn len(&self) -> u64
        ensures len { result ≡ length self.now }
        ensures most { result ≤ 2 ^ 32 }
    {
        self.list.len() as u64
    }

    /// The number of the first leg that isn't down for both ends, or one above the greatest number
    /// that was used. Each leg that is over for good is looked at once: the search begins where the
    /// last one ended, or at a leg that changed since.
    pub(crate) fn first(&mut self) -> u64
        ensures same { self.new ≡ self.old }
        ensures down { (k : ℕ) → k < result → IsTrue (seen.is_low (get_or self.old k seen.blank)) }
        ensures within { result ≤ length self.old }
        ensures stands { result < length self.old
            → seen.is_low (get_or self.old result seen.blank) ≡ false }
    {
        skip_idle(&self.list, &mut self.first);
        self.first.min(self.list.len()) as u64
    }

    /// Whether a leg is up for an end.
    pub(crate) fn is_up(&self, number: u32, side: Side) -> bool
        ensures { result ≡ ask (seen.is_up side) false self.now number }
    {
        let at = number as usize;
        if at < self.list.len() {
            self.list[at].is_up(side)
        } else {
            false
        }
    }

    /// Whether nothing is in flight on a leg in a direction.
    pub(crate) fn is_clear(&self, number: u32, dir: Dir) -> bool
        ensures { result ≡ ask (seen.is_clear dir) true self.now number }
    {
        let at = number as usize;
        if at < self.list.len() {
            self.list[at].is_clear(dir)
        } else {
            true
        }
    }

    /// Puts bytes into flight on a leg.
    pub(crate) fn put(
        &mut self,
        alloc: Global,
        number: u32,
        dir: Dir,
        bytes: &[u8],
    ) -> Result<(), AllocError>
        ensures { OnOk result (self.new ≡ change (seen.put dir bytes.now) self.old number) }
    {
        let at = number as usize;
        if at < self.list.len() {
            self.first = self.first.min(at);
            self.list[at].put(alloc, dir, bytes)?;
        }
        Ok(())
    }

    /// Takes the first bytes out of flight on a leg: `count` of them, or all where there are fewer.
    pub(crate) fn take(
        &mut self,
        alloc: Global,
        number: u32,
        dir: Dir,
        count: usize,
    ) -> Result<Bytes, AllocError>
        ensures { IfOk result (λ bytes.
            (self.new, bytes) ≡ act (seen.take_out dir count) [] self.old number) }
    {
        let at = number as usize;
        if at < self.list.len() {
            self.first = self.first.min(at);
            self.list[at].take(alloc, dir, count)
        } else {
            Ok(Bytes::new(Vec::new(alloc)))
        }
    }

    /// A leg is up for an end.
    pub(crate) fn raise(&mut self, number: u32, side: Side) -> Result<(), AllocError>
        ensures { OnOk result (self.new
            ≡ change (seen.raise side) (grown (number + 1) seen.blank self.old) number) }
    {
        let at = number as usize;
        grow(&mut self.list, at + 1)?;
        self.first = self.first.min(at);
        self.list[at].raise(side);
        Ok(())
    }

    /// A leg is not up for an end any more. Where it is up for neither, what was in flight is lost.
    pub(crate) fn lower(&mut self, number: u32, side: Side)
        ensures { self.new ≡ change (seen.lower side) self.old number }
    {
        let at = number as usize;
        if at < self.list.len() {
            self.first = self.first.min(at);
            self.list[at].lower(side);
        }
    }
}
