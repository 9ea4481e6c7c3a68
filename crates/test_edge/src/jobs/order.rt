//! Jobs that answer from the last to the first, each once those behind it have.

use rh_jobs::{Job, Spawner, ThreadSpawner};
use std::alloc::Global;
use std::sync::{Arc, Condvar, Mutex, Wait};
use std::test::Fail;

// Which job is next, from the last on.
struct Board {
    next: Mutex<u32>,
    moved: Condvar,
}

#[derive(Drop)]
struct InTurn<R: Wait + Drop> {
    rt: R,
    number: u32,
    board: Arc<Board, Global>,
}

impl Drop for Board {
    fn drop(self) {
        let Board { next: _, moved: _ } = self;
    }
}

impl<R: Wait + Drop> Job for InTurn<R> {
    type Out = u32;

    ghost use Rattle.std.specs.Prelude.{◌≡◌};

    ghost answers = { λ job out. out ≡ job.number };

    fn run(self) -> u32 {
        let number = self.number;
        let board = &*self.board;
        let mut next = board.moved.wait_while(
            &self.rt,
            board.next.lock(&self.rt),
            |next| *next != number,
        );
        *next = next.saturating_sub(1);
        board.moved.notify_all();
        number
    }
}

#[test]
fn answers_are_in_the_order_of_the_jobs_whichever_ends_first(rt: HostRuntime) -> Result<(), Fail> {
    let alloc = rt.alloc();
    let board = Arc::new(
        alloc,
        Board {
            next: Mutex::new(3),
            moved: Condvar::new(),
        },
    )?;
    let mut jobs = Vec::new(alloc);
    for number in 0..4 {
        let board = Arc::try_clone(&board)?;
        jobs.push(InTurn { rt, number, board })?;
    }
    let Ok(outs) = ThreadSpawner::new(alloc, rt).all(jobs) else {
        return Err("refused".into());
    };
    assert_eq!(rt; outs.as_slice(), [0, 1, 2, 3].as_slice());
    Ok(())
}
