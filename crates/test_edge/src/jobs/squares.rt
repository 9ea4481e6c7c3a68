//! A job that squares its number, and counts that it began.

use rh_jobs::Job;
use std::alloc::{AllocError, Global};
use std::sync::Arc;
use std::sync::atomic::{AtomicU64, Ordering};

#[derive(Drop)]
pub struct Square {
    pub number: u32,
    pub begun: Arc<AtomicU64, Global>,
}

impl Job for Square {
    type Out = u64;

    ghost use Rattle.std.specs.Prelude.{◌≡◌, ◌*◌};

    ghost answers = { λ job out. out ≡ job.number * job.number };

    fn run(self) -> u64 {
        self.begun.fetch_add(1, Ordering::SeqCst);
        u64::from(self.number) * u64::from(self.number)
    }
}

/// A job for each number, in their order.
pub fn squares(
    alloc: Global,
    begun: &Arc<AtomicU64, Global>,
    numbers: &[u32],
) -> Result<Vec<Square>, AllocError> {
    let mut jobs = Vec::new(alloc);
    for &number in numbers {
        let begun = Arc::try_clone(begun)?;
        jobs.push(Square { number, begun })?;
    }
    Ok(jobs)
}
