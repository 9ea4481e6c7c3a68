//! What runs jobs, and how it refuses them.

ghost use Rattle.std.specs.Prelude.{◌≡◌, ℕ, ◌+◌, ◌≤◌, Bool, true, false, vec_len, IsErrAnd, IfOk, IfErr, OnOk, OnErr, MatchResult};
ghost use Rattle.rh_io.specs.Counts.{Rose};
ghost use Rattle.rh_jobs.specs.Answers.{AnswersEach};
ghost use Rattle.rh_jobs.specs.Counts.{raised};

use crate::job::Job;
use crate::started::run_beside;
use std::alloc::Global;
use std::sync::Wait;
use std::thread::Threads;

/// Why jobs were not run.
#[derive(Clone, Copy, Debug, PartialEq, Eq)]
pub enum SpawnRefused {
    /// The spawner failed, and its count of faults rose.
    Failed,
    /// There was no memory for the threads' handles or the answers.
    NoMemory,
}

/// A call that a spawner doesn't let through. Its count of faults rose.
#[derive(Clone, Copy, Debug, PartialEq, Eq)]
pub struct CallRefused;

/// Runs jobs beside one another, and counts its failures and the jobs that it ran.
///
/// A count that stands at 2^64 - 1 stays there. `all` is one function for all spawners; an
/// implementation gives it a runtime and an allocator, lets each call through or not, and keeps the
/// counts.
pub trait Spawner {
    /// What starts its threads, and waits for them.
    type Runtime: Threads + Wait + Copy + Send + 'static;

    /// How often it failed.
    ghost faults: { Self → ℕ };

    /// How many jobs it ran.
    ghost ran: { Self → ℕ };

    /// Whether it was told to refuse the call that comes after so many further ones.
    ghost refuses: { Self → ℕ → Bool };

    /// The runtime for the next call's threads.
    fn runtime(&self) -> Self::Runtime;

    /// Where the next call takes its memory from.
    fn alloc(&self) -> Global;

    /// Begins a call: lets it through, or refuses it, where it was told to, and counts a failure.
    fn admit(&mut self) -> Result<(), CallRefused>
        ensures planned { MatchResult result
            (λ _. refuses self.old 0 ≡ false) (λ _. refuses self.old 0 ≡ true) }
        ensures later { (k : ℕ) → refuses self.new k ≡ refuses self.old (k + 1) }
        ensures ok { OnOk result (faults self.new ≡ faults self.old) }
        ensures err { OnErr result (Rose (faults self.old) (faults self.new)) }
        ensures faults { faults self.old ≤ faults self.new }
        ensures ran { ran self.new ≡ ran self.old };

    /// Counts a failure.
    fn count_fault(&mut self)
        ensures rose { Rose (faults self.old) (faults self.new) }
        ensures faults { faults self.old ≤ faults self.new }
        ensures ran { ran self.new ≡ ran self.old }
        ensures later { (k : ℕ) → refuses self.new k ≡ refuses self.old k };

    /// Counts `count` jobs that ran.
    fn count_jobs(&mut self, count: usize)
        ensures rose { ran self.new ≡ raised (ran self.old) count }
        ensures ran { ran self.old ≤ ran self.new }
        ensures faults { faults self.new ≡ faults self.old }
        ensures later { (k : ℕ) → refuses self.new k ≡ refuses self.old k };

    /// Runs jobs beside one another, on a thread each, and answers in their order.
    ///
    /// All are started before any begins. Where the spawner refuses the call or can't start a
    /// thread it answers `Failed`, where there was no memory `NoMemory`. None has begun then, and
    /// the jobs come back as they were, in their order. Returns when the last job has answered.
    final fn all<J: Job + Send + Drop + 'static>(
        &mut self,
        jobs: Vec<J>,
    ) -> Result<Vec<J::Out>, (SpawnRefused, Vec<J>)>
    where
        Self: Sized,
        J::Out: Send + Drop + 'static,
        ensures answers { IfOk result (λ outs. AnswersEach J.answers jobs.items outs.items) }
        ensures count { IfOk result (λ outs. vec_len outs ≡ vec_len jobs) }
        ensures rose { IfOk result (λ outs. ran self.new ≡ raised (ran self.old) (vec_len outs)) }
        ensures none_ran { OnErr result (ran self.new ≡ ran self.old) }
        ensures back { IfErr result (λ refused. refused.1.items ≡ jobs.items) }
        ensures ok { OnOk result (faults self.new ≡ faults self.old) }
        ensures failed { IfErr result (λ refused. refused.0 ≡ SpawnRefused.Failed
            → Rose (faults self.old) (faults self.new)) }
        ensures no_memory { IfErr result (λ refused. refused.0 ≡ SpawnRefused.NoMemory
            → faults self.new ≡ faults self.old) }
        ensures planned { refuses self.old 0 ≡ true
            → IsErrAnd result (λ refused. refused.0 ≡ SpawnRefused.Failed) }
        ensures later { (k : ℕ) → refuses self.new k ≡ refuses self.old (k + 1) }
        ensures faults { faults self.old ≤ faults self.new }
        ensures ran { ran self.old ≤ ran self.new }
    {
        let Ok(()) = self.admit() else {
            return Err((SpawnRefused::Failed, jobs));
        };
        match run_beside(self.alloc(), self.runtime(), jobs) {
            Ok(outs) => {
                self.count_jobs(outs.len());
                Ok(outs)
            }
            Err((SpawnRefused::Failed, jobs)) => {
                self.count_fault();
                Err((SpawnRefused::Failed, jobs))
            }
            Err((SpawnRefused::NoMemory, jobs)) => Err((SpawnRefused::NoMemory, jobs)),
        }
    }
}
