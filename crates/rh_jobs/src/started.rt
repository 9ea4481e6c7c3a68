//! A thread for each job, and what comes back of them.

ghost use Rattle.std.specs.Prelude.{◌≡◌, ◌<◌, ◌≤◌, ◌+◌, ◌++◌, ◌∷◌, [], vec_len, vec_capacity, IfOk, IfErr, OnOk};
ghost use Rattle.rh_jobs.specs.Answers.{AnswersEach};
ghost use Rattle.rh_jobs.specs.Workers.{Settles, jobs_of};

use crate::job::Job;
use crate::latch::{Latch, Never, Undecided};
use crate::spawner::SpawnRefused;
use crate::worker::{Handle, Owed, Returned, answer, settle, unbegun, wait_at};
use std::alloc::Global;
use std::marker::Brand;
use std::snapshot::Snapshot;
use std::sync::ledger::{Blank, Ledger};
use std::sync::{Arc, Wait};
use std::thread::{self, Threads};

// Pushes where there is room.
fn put<T: Drop>(list: &mut Vec<T>, value: T)
    requires { vec_len list.old < vec_capacity list.old }
    ensures items { list.new.items ≡ list.old.items ++ value ∷ [] }
    ensures len { vec_len list.new ≡ vec_len list.old + 1 }
    ensures capacity { vec_capacity list.old ≤ vec_capacity list.new }
{
    let Ok(()) = list.push(value) else {
        unreachable!()
    };
}

// Starts threads that wait at a latch, each with its job.
#[derive(Drop)]
struct Starter<R, Go: Ledger, Off: Ledger> {
    rt: R,
    latch: Arc<Latch<Go, Off>, Global>,
}

impl<
    R: Threads + Wait + Copy + Send + 'static,
    Go: Ledger + Send + Sync + 'static,
    Off: Ledger + Send + Sync + 'static,
> Starter<R, Go, Off> {
    // Starts a thread. Where none can be started, all is called off, and the job comes back.
    fn start<J: Job + Send + Drop + 'static>(
        &self,
        undecided: Undecided<Go, Off>,
        job: J,
    ) -> Result<(Handle<J, J::Out, Go, Off>, Undecided<Go, Off>), (J, Never<Go>)>
    where
        J::Out: Send + Drop + 'static,
        requires { 0 < undecided.go_passes.parts }
        ensures ok { IfOk result (λ started. started.0.promise.job.value ≡ job) }
        ensures pass { IfOk result (λ started.
            started.1.go_passes.parts + 1 ≡ undecided.go_passes.parts) }
        ensures err { IfErr result (λ refused. refused.0 ≡ job) }
    {
        let Ok(theirs) = Arc::try_clone(&self.latch) else {
            return Err((job, self.latch.call_off(&self.rt, undecided)));
        };
        let mut undecided = undecided;
        let pass = undecided.pass();
        let owed = Owed {
            job: Snapshot::of(&job),
        };
        let their_rt = self.rt;
        let worker = move || -> Returned<J, J::Out, Go, Off>
            ensures { Settles J.answers job result }
        { settle(wait_at(their_rt, theirs, pass, job)) };
        match thread::spawn_with(&self.rt, owed, worker) {
            Ok(handle) => Ok((handle, undecided)),
            Err(refused) => {
                let never = self.latch.call_off(&self.rt, undecided);
                let job = unbegun(&never, (refused.value)());
                Err((job, never))
            }
        }
    }

    // Starts a thread for the last job that waits, or lets it wait on.
    fn start_next<J: Job + Send + Drop + 'static>(
        &self,
        undecided: Undecided<Go, Off>,
        job: J,
        waiting: &mut Vec<J>,
        handles: &mut Vec<Handle<J, J::Out, Go, Off>>,
    ) -> Result<Undecided<Go, Off>, Never<Go>>
    where
        J::Out: Send + Drop + 'static,
        requires pass { 0 < undecided.go_passes.parts }
        requires room { vec_len handles.old < vec_capacity handles.old }
        requires back { vec_len waiting.old < vec_capacity waiting.old }
        ensures pass { IfOk result (λ rest. rest.go_passes.parts + 1 ≡ undecided.go_passes.parts) }
        ensures waiting { OnOk result (waiting.new ≡ waiting.old) }
        ensures capacity { (vec_capacity handles.old ≤ vec_capacity handles.new)
            × (vec_capacity waiting.old ≤ vec_capacity waiting.new) }
        ensures count { vec_len waiting.new + vec_len handles.new
            ≡ vec_len waiting.old + vec_len handles.old + 1 }
        ensures jobs { waiting.new.items ++ jobs_of handles.new.items
            ≡ (waiting.old.items ++ job ∷ []) ++ jobs_of handles.old.items }
    {
        match self.start(undecided, job) {
            Ok((handle, rest)) => {
                put(handles, handle);
                Ok(rest)
            }
            Err((job, never)) => {
                put(waiting, job);
                Err(never)
            }
        }
    }

    // Starts a thread for each job, from the last job on, until one can't be started.
    fn start_all<J: Job + Send + Drop + 'static>(
        &self,
        undecided: Undecided<Go, Off>,
        waiting: &mut Vec<J>,
        handles: &mut Vec<Handle<J, J::Out, Go, Off>>,
    ) -> Result<Undecided<Go, Off>, Never<Go>>
    where
        J::Out: Send + Drop + 'static,
        requires passes { undecided.go_passes.parts ≡ vec_len waiting.old }
        requires none { handles.old.items ≡ [] }
        requires room { vec_len waiting.old ≤ vec_capacity handles.old }
        ensures all { OnOk result (waiting.new.items ≡ []) }
        ensures passes { IfOk result (λ undecided. undecided.go_passes.parts ≡ 0) }
        ensures room { vec_len waiting.new + vec_len handles.new ≤ vec_capacity waiting.new }
        ensures jobs { waiting.new.items ++ jobs_of handles.new.items ≡ waiting.old.items }
    {
        let mut undecided = undecided;
        while let Some(job) = waiting.pop() {
            undecided = self.start_next(undecided, job, waiting, handles)?;
        }
        Ok(undecided)
    }
}

// Puts the jobs of the threads back behind those that wait.
fn take_back<J: Job + Drop, R: Threads, Go: Ledger, Off: Ledger>(
    rt: &R,
    never: &Never<Go>,
    waiting: &mut Vec<J>,
    handles: &mut Vec<Handle<J, J::Out, Go, Off>>,
)
where
    J::Out: Drop,
    requires { vec_len waiting.old + vec_len handles.old ≤ vec_capacity waiting.old }
    ensures { waiting.new.items ≡ waiting.old.items ++ jobs_of handles.old.items }
{
    while let Some(handle) = handles.pop() {
        let job = unbegun(never, handle.join(rt));
        put(waiting, job);
    }
}

// Gathers the answers of the threads, in the order of their jobs.
fn gather<J: Job + Drop, R: Threads, Go: Ledger, Off: Ledger>(
    rt: &R,
    never: &Never<Off>,
    handles: &mut Vec<Handle<J, J::Out, Go, Off>>,
    answers: &mut Vec<J::Out>,
)
where
    J::Out: Drop,
    requires none { answers.old.items ≡ [] }
    requires room { vec_len handles.old ≤ vec_capacity answers.old }
    ensures { AnswersEach J.answers (jobs_of handles.old.items) answers.new.items }
{
    while let Some(handle) = handles.pop() {
        let out = answer(never, handle.join(rt));
        put(answers, out);
    }
}

/// Runs jobs beside one another, on a thread each, and answers in their order.
///
/// Where there is no memory or a thread can't be started, none began, and all come back as they
/// were.
pub fn run_beside<J: Job + Send + Drop + 'static, R: Threads + Wait + Copy + Send + 'static>(
    alloc: Global,
    rt: R,
    jobs: Vec<J>,
) -> Result<Vec<J::Out>, (SpawnRefused, Vec<J>)>
where
    J::Out: Send + Drop + 'static,
    ensures ok { IfOk result (λ outs. AnswersEach J.answers jobs.items outs.items) }
    ensures err { IfErr result (λ refused. refused.1.items ≡ jobs.items) }
{
    let parts = jobs.len() as u64;
    run_under::<J, R, Brand, Brand>(alloc, rt, Blank::new(parts), Blank::new(parts), jobs)
}

// Runs jobs beside one another, with a ledger for each of the two decisions.
fn run_under<
    J: Job + Send + Drop + 'static,
    R: Threads + Wait + Copy + Send + 'static,
    Go: Ledger + Send + Sync + 'static,
    Off: Ledger + Send + Sync + 'static,
>(
    alloc: Global,
    rt: R,
    go: Blank,
    off: Blank,
    jobs: Vec<J>,
) -> Result<Vec<J::Out>, (SpawnRefused, Vec<J>)>
where
    J::Out: Send + Drop + 'static,
    requires go { (go.name ≡ Go.name) × (go.parts ≡ Go.parts) }
    requires off { (off.name ≡ Off.name) × (off.parts ≡ Off.parts) }
    requires parts { (go.parts ≡ vec_len jobs) × (off.parts ≡ vec_len jobs) }
    ensures ok { IfOk result (λ outs. AnswersEach J.answers jobs.items outs.items) }
    ensures err { IfErr result (λ refused. refused.1.items ≡ jobs.items) }
{
    let Ok(latch) = Arc::new(alloc, Latch::<Go, Off>::new()) else {
        return Err((SpawnRefused::NoMemory, jobs));
    };
    let Ok(mut handles) = Vec::with_capacity(alloc, jobs.len()) else {
        return Err((SpawnRefused::NoMemory, jobs));
    };
    let Ok(mut answers) = Vec::with_capacity(alloc, jobs.len()) else {
        return Err((SpawnRefused::NoMemory, jobs));
    };
    let undecided = Undecided::new(go, off);
    let mut waiting = jobs;
    let starter = Starter { rt, latch };
    match starter.start_all(undecided, &mut waiting, &mut handles) {
        Ok(undecided) => {
            let never = starter.latch.begin(&starter.rt, undecided);
            gather(&starter.rt, &never, &mut handles, &mut answers);
            Ok(answers)
        }
        Err(never) => {
            take_back(&starter.rt, &never, &mut waiting, &mut handles);
            Err((SpawnRefused::Failed, waiting))
        }
    }
}
