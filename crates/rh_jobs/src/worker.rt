//! What a thread does with its job, and what it hands in.

ghost use Rattle.std.specs.Prelude.{◌≡◌};
ghost use Rattle.rh_jobs.specs.Workers.{Settles, brought};

use crate::job::Job;
use crate::latch::{Decided, Latch, Never, Pass, Witness};
use std::alloc::Global;
use std::snapshot::Snapshot;
use std::sync::ledger::Ledger;
use std::sync::{Arc, Wait};
use std::thread::{Promise, PromisedHandle};

/// What a thread hands in.
#[derive(Drop)]
pub enum Returned<J, O, Go: Ledger, Off: Ledger> {
    /// What its job answered, where the jobs were let begin.
    Answer(O, Witness<Go>),
    /// Its job, where they were called off.
    Unbegun(J, Witness<Off>),
}

/// The promise of a thread that has a job.
#[derive(Drop)]
pub struct Owed<J: Job> {
    pub job: Snapshot<J>,
}

impl<J: Job, Go: Ledger, Off: Ledger> Promise<Returned<J, J::Out, Go, Off>> for Owed<J> {
    ghost use Rattle.rh_jobs.specs.Workers.{Settles};

    ghost kept_by = { λ owed returned. Settles J.answers owed.job.value returned };
}

/// A thread that has a job.
pub type Handle<J, O, Go, Off> = PromisedHandle<Returned<J, O, Go, Off>, Owed<J>>;

/// Waits at the latch with a value.
pub fn wait_at<T, R: Wait + Drop, Go: Ledger, Off: Ledger>(
    rt: R,
    latch: Arc<Latch<Go, Off>, Global>,
    pass: Pass<Go, Off>,
    value: T,
) -> Decided<T, Go, Off>
    ensures { brought result ≡ value }
{
    latch.wait(&rt, pass, value)
}

/// Does the job, where the jobs were let begin, or hands it back.
pub fn settle<J: Job, Go: Ledger, Off: Ledger>(
    decided: Decided<J, Go, Off>,
) -> Returned<J, J::Out, Go, Off>
    ensures { Settles J.answers (brought decided) result }
{
    match decided {
        Decided::Begin(job, witness) => Returned::Answer(job.run(), witness),
        Decided::CallOff(job, witness) => Returned::Unbegun(job, witness),
    }
}

/// The job that a thread hands back, where none began.
pub fn unbegun<J: Job, Go: Ledger, Off: Ledger>(
    never: &Never<Go>,
    returned: Returned<J, J::Out, Go, Off>,
) -> J
where
    J::Out: Drop,
    ensures { (job : J) → Settles J.answers job returned → result ≡ job }
{
    match returned {
        Returned::Unbegun(job, _) => job,
        Returned::Answer(_, witness) => {
            never.rules_out(witness);
            unreachable!()
        }
    }
}

/// The answer that a thread hands in, where none was called off.
pub fn answer<J: Job + Drop, Go: Ledger, Off: Ledger>(
    never: &Never<Off>,
    returned: Returned<J, J::Out, Go, Off>,
) -> J::Out
    ensures { (job : J) → Settles J.answers job returned → J.answers job result }
{
    match returned {
        Returned::Answer(out, _) => out,
        Returned::Unbegun(_, witness) => {
            never.rules_out(witness);
            unreachable!()
        }
    }
}
