//! Those who connect in memory, and wait for somebody to accept them.

ghost use Rattle.std.specs.Prelude.{◌≡◌, ◌+◌, ◌<◌, ◌≤◌, [], ◌∷◌, ◌++◌, length, position};
ghost use Rattle.std.specs.Prelude.{vec_len, vec_capacity, IfOk, MatchOption, IfSome};
ghost use Rattle.rh_net.specs.Memory.Waiting.{waits_for};

use crate::Address;
use rh_io::NoMemory;
use std::alloc::Global;

/// Whether somebody took a caller's leg.
#[derive(Clone, Copy)]
pub enum Calling {
    /// It waits.
    Waits,
    /// Its leg was taken.
    Taken,
}

/// Who connected to an address.
#[derive(Clone, Copy)]
pub struct Caller {
    to: Address,
    calling: Calling,
}

impl Caller {
    ghost use Rattle.rh_net.specs.Memory.Waiting.{waits_for};

    /// Whether it waits for an address: for the same host and port.
    pub fn waits_for(&self, at: &Address) -> bool
        ensures { result ≡ waits_for at.now self.now }
    {
        self.calling == Calling::Waits && self.to.host() == at.host() && self.to.port == at.port
    }
}

/// Those who connected, in order, and room for so many.
#[derive(Drop)]
pub struct Callers {
    callers: Vec<Caller>,
    room: usize,
    ghost reserved: { room ≤ vec_capacity callers },
}

impl Callers {
    ghost use Rattle.rh_net.specs.Memory.Waiting.{waiting_at, first_for, taken_at};

    /// Nobody yet, with room for `room` callers.
    pub fn new(alloc: Global, room: usize) -> Result<Callers, NoMemory>
        ensures { IfOk result (λ c. (c.callers.items ≡ []) × (c.room ≡ room)) }
    {
        Ok(Callers {
            callers: Vec::with_capacity(alloc, room)?,
            room,
        })
    }

    /// Adds a caller that waits for an address, and answers how many came before it; `None` where
    /// there is no room.
    pub fn call(&mut self, to: &Address) -> Option<usize>
        ensures { MatchOption result ((self.old.room ≤ vec_len self.old.callers)
            × (self.new ≡ self.old)) (λ n.
            (n ≡ vec_len self.old.callers) × (n < self.old.room) × (self.new.room ≡ self.old.room)
            × (self.new.callers.items ≡ self.old.callers.items ++ waiting_at to.now ∷ [])) }
    {
        let place = self.callers.len();
        if self.room <= place {
            return None;
        }
        let caller = Caller {
            to: *to,
            calling: Calling::Waits,
        };
        let Ok(()) = self.callers.push(caller) else {
            unreachable!()
        };
        Some(place)
    }

    /// Takes the first caller that waits for an address, and answers how many came before it.
    pub fn answer(&mut self, at: &Address) -> Option<usize>
        ensures first { result ≡ first_for at.now self.old.callers.items }
        ensures bound { IfSome result (λ n. n < vec_len self.old.callers) }
        ensures taken { MatchOption result (self.new ≡ self.old) (λ n.
            self.new.callers.items ≡ taken_at n self.old.callers.items) }
        ensures room { self.new.room ≡ self.old.room }
    {
        let place = first_for(&self.callers, at)?;
        self.callers[place].calling = Calling::Taken;
        Some(place)
    }
}

// How many stand before the first that waits for the address.
fn first_for(callers: &[Caller], at: &Address) -> Option<usize>
    ensures first { result ≡ position (waits_for at.now) callers.now }
    ensures bound { IfSome result (λ n. n < length callers.now) }
{
    callers.iter().position(|c| c.waits_for(at))
}
