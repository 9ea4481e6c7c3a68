//! A spawner whose calls fail where the caller asks for it.

ghost use Rattle.std.specs.Prelude.{◌≡◌, ℕ, ◌+◌, ◌||◌};
ghost use Rattle.rh_io.specs.Memory.{is_to_fail};
ghost use Rattle.rh_jobs.specs.Counts.{raised};

use crate::spawner::{CallRefused, Spawner};
use std::alloc::Global;

/// A spawner around another one, which refuses the calls that it was told to.
///
/// Its counts are those of the spawner in it.
#[derive(Drop)]
pub struct CountSpawner<S: Spawner> {
    inner: S,
    fails: Vec<u64>,
    calls: u64,
}

impl<S: Spawner> CountSpawner<S> {
    /// A spawner around `inner`. `fails` has the numbers of the calls that fail, counted from 1.
    ///
    /// Each call is one of `inner` too. A call above 2^64 - 1 has that number.
    pub fn new(inner: S, fails: Vec<u64>) -> CountSpawner<S>
        ensures faults { ⟦<CountSpawner<S> as Spawner>⟧.faults result ≡ S.faults inner }
        ensures ran { ⟦<CountSpawner<S> as Spawner>⟧.ran result ≡ S.ran inner }
        ensures refuses { (k : ℕ) → ⟦<CountSpawner<S> as Spawner>⟧.refuses result k
            ≡ (S.refuses inner k || is_to_fail fails.items (raised 0 (k + 1))) }
    {
        CountSpawner {
            inner,
            fails,
            calls: 0,
        }
    }
}

impl<S: Spawner> Spawner for CountSpawner<S> {
    type Runtime = S::Runtime;

    ghost faults = { λ s. S.faults s.inner };

    ghost ran = { λ s. S.ran s.inner };

    ghost refuses = { λ s k. S.refuses s.inner k
        || is_to_fail s.fails.items (raised s.calls (k + 1)) };

    fn runtime(&self) -> S::Runtime {
        self.inner.runtime()
    }

    fn alloc(&self) -> Global {
        self.inner.alloc()
    }

    fn admit(&mut self) -> Result<(), CallRefused> {
        self.calls = self.calls.saturating_add(1);
        self.inner.admit()?;
        if self.fails.contains(&self.calls) {
            self.inner.count_fault();
            return Err(CallRefused);
        }
        Ok(())
    }

    fn count_fault(&mut self) {
        self.inner.count_fault();
    }

    fn count_jobs(&mut self, count: usize) {
        self.inner.count_jobs(count);
    }
}
