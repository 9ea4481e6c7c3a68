//! Which calls fail, and what comes back of them.

use crate::jobs::squares::squares;
use rh_jobs::{CountSpawner, SpawnRefused, Spawner, ThreadSpawner};
use std::sync::Arc;
use std::sync::atomic::{AtomicU64, Ordering};
use std::test::Fail;

#[test]
fn a_call_that_is_to_fail_gives_back_its_jobs_and_begins_none(rt: HostRuntime) -> Result<(), Fail> {
    let alloc = rt.alloc();
    let begun = Arc::new(alloc, AtomicU64::new(0))?;
    let fails = Vec::from_slice(alloc, &[2, 3, 5])?;
    let mut spawner = CountSpawner::new(ThreadSpawner::new(alloc, rt), fails);
    // Whether the call fails, and how many jobs have begun after it.
    let calls = [(false, 4), (true, 4), (true, 4), (false, 8), (true, 8)];
    for (fails, count) in calls {
        let jobs = squares(alloc, &begun, &[7, 0, 12, 65536])?;
        match spawner.all(jobs) {
            Ok(outs) => {
                assert!(rt; !fails, "after {count}");
                assert_eq!(rt; outs.as_slice(), [49, 0, 144, 4_294_967_296].as_slice());
            }
            Err((refused, jobs)) => {
                assert!(rt; fails && refused == SpawnRefused::Failed, "after {count}");
                let mut numbers = Vec::new(alloc);
                for job in &jobs {
                    numbers.push(job.number)?;
                }
                assert_eq!(rt; numbers.as_slice(), [7, 0, 12, 65536].as_slice());
            }
        }
        assert_eq!(rt; begun.load(Ordering::SeqCst), count);
    }
    Ok(())
}

#[test]
fn no_jobs_have_no_answers(rt: HostRuntime) -> Result<(), Fail> {
    let alloc = rt.alloc();
    let begun = Arc::new(alloc, AtomicU64::new(0))?;
    let jobs = squares(alloc, &begun, &[])?;
    let Ok(outs) = ThreadSpawner::new(alloc, rt).all(jobs) else {
        return Err("refused".into());
    };
    assert!(rt; outs.is_empty());
    Ok(())
}
