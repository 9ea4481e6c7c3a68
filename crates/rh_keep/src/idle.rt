//! How long a leg was idle.

ghost use Rattle.std.specs.Prelude.{◌≡◌};
ghost use Rattle.rh_keep.specs.Idles.{idle_from, after_touch, reached};

use std::marker::Model;

/// Since when no bytes came on a leg, and for how long that may go on. Moments and limits are in
/// milliseconds, by any one clock (profile).
#[derive(Clone, Copy)]
pub struct Idle {
    limit: u32,
    since: u64,
}

impl Model for Idle {
    ghost use Rattle.rh_keep.specs.Idles as seen;

    ghost Value = { seen.Idle };

    ghost view = { λ i. record { limit = i.limit; since = i.since } };

    ghost inverse = { λ i. record { limit = i.limit; since = i.since } };
}

impl Idle {
    /// A time of `limit` milliseconds, which begins now.
    pub fn new(limit: u32, now: u64) -> Idle
        ensures { result ≡ idle_from limit now }
    {
        Idle { limit, since: now }
    }

    /// Lets the time begin again now.
    pub fn touch(&mut self, now: u64)
        ensures { self.new ≡ after_touch self.old now }
    {
        self.since = now;
    }

    /// The moment at which the time began, where the limit has passed since then. `None` before
    /// that, and where `now` is before that moment.
    pub fn reached(&self, now: u64) -> Option<u64>
        ensures { result ≡ reached self.now now }
    {
        let idle = now.checked_sub(self.since)?;
        if idle < u64::from(self.limit) {
            return None;
        }
        Some(self.since)
    }
}
