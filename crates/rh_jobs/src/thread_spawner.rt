//! The spawner over the runtime's threads.

ghost use Rattle.std.specs.Prelude.{◌≡◌, ℕ, false};

use crate::spawner::{CallRefused, Spawner};
use std::alloc::Global;
use std::sync::Wait;
use std::thread::Threads;

/// Runs each job on a thread of the runtime. It refuses no call.
#[derive(Drop)]
pub struct ThreadSpawner<R: Threads + Wait + Copy + Send + 'static> {
    alloc: Global,
    rt: R,
    faults: u64,
    ran: u64,
}

impl<R: Threads + Wait + Copy + Send + 'static> ThreadSpawner<R> {
    /// A spawner over `rt`, with both counts at 0. It takes memory from `alloc` for each call.
    pub fn new(alloc: Global, rt: R) -> ThreadSpawner<R>
        ensures faults { ⟦<ThreadSpawner<R> as Spawner>⟧.faults result ≡ 0 }
        ensures ran { ⟦<ThreadSpawner<R> as Spawner>⟧.ran result ≡ 0 }
        ensures refuses { (k : ℕ) → ⟦<ThreadSpawner<R> as Spawner>⟧.refuses result k ≡ false }
    {
        ThreadSpawner {
            alloc,
            rt,
            faults: 0,
            ran: 0,
        }
    }
}

impl<R: Threads + Wait + Copy + Send + 'static> Spawner for ThreadSpawner<R> {
    type Runtime = R;

    ghost faults = { λ s. s.faults };

    ghost ran = { λ s. s.ran };

    ghost refuses = { λ _ _. false };

    fn runtime(&self) -> R {
        self.rt
    }

    fn alloc(&self) -> Global {
        self.alloc
    }

    fn admit(&mut self) -> Result<(), CallRefused> {
        Ok(())
    }

    fn count_fault(&mut self) {
        self.faults = self.faults.saturating_add(1);
    }

    fn count_jobs(&mut self, count: usize) {
        self.ran = self.ran.saturating_add(count as u64);
    }
}
