//! What callers know by the bounds alone: of any spawner at one job, and of one spawner.

ghost use Rattle.std.specs.Prelude.{◌≡◌, ◌*◌, [], ◌∷◌, IfSome};

use crate::jobs::squares::{Square, squares};
use rh_jobs::{CountSpawner, Spawner, ThreadSpawner};
use std::alloc::Global;
use std::sync::atomic::AtomicU64;
use std::sync::{Arc, Wait};
use std::test::Fail;
use std::thread::Threads;

// The squares of two numbers, by any spawner.
fn two_squares<S: Spawner>(
    spawner: &mut S,
    jobs: Vec<Square>,
    one: Square,
    two: Square,
) -> Option<(u64, u64)>
    requires { jobs.items ≡ [] }
    ensures first { IfSome result (λ r. r.0 ≡ one.number * one.number) }
    ensures second { IfSome result (λ r. r.1 ≡ two.number * two.number) }
{
    let mut jobs = jobs;
    let Ok(()) = jobs.push(one) else {
        return None;
    };
    let Ok(()) = jobs.push(two) else {
        return None;
    };
    let Ok(mut outs) = spawner.all(jobs) else {
        return None;
    };
    let Some(second) = outs.pop() else {
        unreachable!()
    };
    let Some(first) = outs.pop() else {
        unreachable!()
    };
    Some((first, second))
}

// The jobs of the second call, of a spawner that is to fail it.
fn refused_second<R: Threads + Wait + Copy + Send + 'static>(
    alloc: Global,
    rt: R,
    fails: Vec<u64>,
    first: Vec<Square>,
    second: Vec<Square>,
) -> Vec<Square>
    requires { fails.items ≡ 2 ∷ [] }
    ensures { result.items ≡ second.items }
{
    let mut spawner = CountSpawner::new(ThreadSpawner::new(alloc, rt), fails);
    let _ = spawner.all(first);
    let Err((_, jobs)) = spawner.all(second) else {
        unreachable!()
    };
    jobs
}

#[test]
fn a_caller_knows_what_its_jobs_answered_and_which_call_failed(
    rt: HostRuntime,
) -> Result<(), Fail> {
    let alloc = rt.alloc();
    let begun = Arc::new(alloc, AtomicU64::new(0))?;
    let mut jobs = squares(alloc, &begun, &[3, 4])?;
    let (Some(two), Some(one)) = (jobs.pop(), jobs.pop()) else {
        return Err("no jobs".into());
    };
    let mut spawner = ThreadSpawner::new(alloc, rt);
    let found = two_squares(&mut spawner, Vec::new(alloc), one, two);
    assert_eq!(rt; found, Some((9, 16)));

    let fails = Vec::from_slice(alloc, &[2])?;
    let (first, second) = (squares(alloc, &begun, &[1])?, squares(alloc, &begun, &[5])?);
    assert_eq!(rt; refused_second(alloc, rt, fails, first, second).len(), 1);
    Ok(())
}
