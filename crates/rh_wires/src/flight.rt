//! The bytes in flight in one direction of a leg.

ghost use Rattle.std.specs.Prelude.{◌≡◌, ◌==◌, ◌++◌, ◌≤◌, [], length, take, drop, vec_len, IfOk, IfSome, MatchOption, OnOk, OnErr};
ghost use Rattle.rh_wires.specs.Flights.{items_of, IsLean};

use rh_text::Bytes;
use std::alloc::{AllocError, Global};
use std::marker::Model;
use std::mem::replace;

/// Bytes that were drawn at one end and not fed at the other, in order. It has no memory where none
/// were drawn.
///
/// What is fed whole is handed over in the memory in which it stands. The list has at most twice as
/// many bytes as are in flight.
#[derive(Drop)]
pub struct Flight {
    /// Bytes that were drawn.
    drawn: Option<Vec<u8>>,
    /// How many of them were fed, from the front on: at most half.
    fed: usize,
}

impl Model for Flight {
    ghost use Rattle.std.specs.Prelude.{List, ℕ, drop};
    ghost use Rattle.rh_wires.specs.Flights.{items_of, IsLean};

    ghost Value = { List ℕ };

    ghost view = { λ a. drop a.fed (items_of a.drawn) };

    ghost invariant = { λ a. IsLean a.fed (items_of a.drawn) };
}

/// Drops the first bytes, which were fed, once they are more than half of those that are held.
/// Answers how many were fed of those that are held then.
fn drop_fed(alloc: Global, drawn: &mut Vec<u8>, fed: usize) -> Result<usize, AllocError>
    requires { fed ≤ vec_len drawn.old }
    ensures left { IfOk result (λ held. drop held drawn.new.items ≡ drop fed drawn.old.items) }
    ensures lean { IfOk result (λ held. IsLean held drawn.new.items) }
    ensures err { OnErr result (drawn.new.items ≡ drawn.old.items) }
{
    if fed <= drawn.len() / 2 {
        return Ok(fed);
    }
    let (_, left) = drawn.as_slice().split_at(fed);
    *drawn = Vec::from_slice(alloc, left)?;
    Ok(0)
}

impl Flight {
    /// No bytes.
    pub(crate) fn new() -> Flight
        ensures { result ≡ [] }
    {
        Flight {
            drawn: None,
            fed: 0,
        }
    }

    /// Whether there are no bytes.
    pub(crate) fn is_empty(&self) -> bool
        ensures { result ≡ (length self.now == 0) }
    {
        match &self.drawn {
            None => true,
            Some(drawn) => drawn.len() == self.fed,
        }
    }

    /// Adds bytes behind the others.
    pub(crate) fn push(&mut self, alloc: Global, bytes: &[u8]) -> Result<(), AllocError>
        ensures done { OnOk result (self.new ≡ self.old ++ bytes.now) }
        ensures err { OnErr result (self.new ≡ self.old) }
    {
        let Some(drawn) = &mut self.drawn else {
            self.drawn = Some(Vec::from_slice(alloc, bytes)?);
            return Ok(());
        };
        drawn.extend_from_slice(bytes)
    }

    /// Hands over all bytes in the memory in which they stand, where none was fed and they are no
    /// more than `count`.
    fn take_whole(&mut self, alloc: Global, count: usize) -> Option<Bytes>
        ensures taken { IfSome result (λ whole. whole ≡ take count self.old) }
        ensures left { MatchOption result (self.new ≡ self.old)
            (λ whole. self.new ≡ drop count self.old) }
    {
        if let Some(drawn) = &mut self.drawn {
            if self.fed == 0 && drawn.len() <= count {
                return Some(Bytes::new(replace(drawn, Vec::new(alloc))));
            }
        }
        None
    }

    /// The first bytes, as a list of their own: `count` of them, or all where there are fewer.
    fn front(&self, alloc: Global, count: usize) -> Result<Bytes, AllocError>
        ensures { IfOk result (λ front. front ≡ take count self.now) }
    {
        let Some(drawn) = &self.drawn else {
            return Ok(Bytes::new(Vec::new(alloc)));
        };
        let (_, left) = drawn.as_slice().split_at(self.fed);
        let (front, _) = left.split_at(count.min(left.len()));
        Ok(Bytes::new(Vec::from_slice(alloc, front)?))
    }

    /// The first bytes were fed: `count` of them, or all where there are fewer.
    fn pass(&mut self, alloc: Global, count: usize) -> Result<(), AllocError>
        ensures done { OnOk result (self.new ≡ drop count self.old) }
        ensures err { OnErr result (self.new ≡ self.old) }
    {
        if let Some(drawn) = &mut self.drawn {
            let fed = self.fed + count.min(drawn.len() - self.fed);
            self.fed = drop_fed(alloc, drawn, fed)?;
        }
        Ok(())
    }

    /// Takes the first bytes out: `count` of them, or all where there are fewer.
    pub(crate) fn take(&mut self, alloc: Global, count: usize) -> Result<Bytes, AllocError>
        ensures taken { IfOk result (λ front. front ≡ take count self.old) }
        ensures left { OnOk result (self.new ≡ drop count self.old) }
        ensures err { OnErr result (self.new ≡ self.old) }
    {
        if let Some(whole) = self.take_whole(alloc, count) {
            return Ok(whole);
        }
        let front = self.front(alloc, count)?;
        self.pass(alloc, count)?;
        Ok(front)
    }
}
