//! Clocks: the moment, in milliseconds.

ghost use Rattle.std.specs.Prelude.{◌≡◌, ℕ, ◌+◌, ◌-◌, ◌^◌, ◌≤◌, min};

/// What tells the moment.
pub trait Clock {
    /// The last moment that it answered, in milliseconds; 0 before the first.
    ghost moment: { Self → ℕ };

    /// The moment, in milliseconds from a start of the clock's own. It never falls.
    fn now(&mut self) -> u64
        ensures moment { moment self.new ≡ result }
        ensures later { moment self.old ≤ result };
}

/// A clock in memory, which goes on by a step at each call.
#[derive(Clone, Copy, Debug)]
pub struct MemClock {
    next: u64,
    step: u64,
    last: u64,
    ghost ahead: { last ≤ next },
}

impl MemClock {
    /// A clock that answers `first` at its first call and `step` more at each later one, in
    /// milliseconds. It stays at the greatest u64.
    pub fn new(first: u64, step: u64) -> MemClock
        ensures moment { ⟦<MemClock as Clock>⟧.moment result ≡ 0 }
        ensures next { (result.next ≡ first) × (result.step ≡ step) }
    {
        MemClock {
            next: first,
            step,
            last: 0,
        }
    }
}

impl Clock for MemClock {
    ghost moment = { λ c. c.last };

    fn now(&mut self) -> u64
        ensures moment { self.new.last ≡ result }
        ensures later { self.old.last ≤ result }
        ensures value { result ≡ self.old.next }
        ensures next { (self.new.next ≡ min (self.old.next + self.old.step) (2 ^ 64 - 1))
            × (self.new.step ≡ self.old.step) }
    {
        let moment = self.next;
        self.next = moment.saturating_add(self.step);
        self.last = moment;
        moment
    }
}
