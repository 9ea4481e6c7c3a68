//! A pipe that two threads share.

ghost use Rattle.std.specs.Prelude.{◌<◌, ◌≤◌, length, IfSome};

use crate::in_memory::pipe::{Found, Pipe, Put};
use rh_io::NoMemory;
use std::alloc::Global;
use std::sync::{Condvar, CondvarTimeouts, Mutex, Wait};
use std::time::{Clock, Duration};

/// A pipe under a lock, at which its reader waits for bytes and its writer for room.
#[derive(Drop)]
pub(crate) struct Lane {
    pipe: Mutex<Pipe>,
    changed: Condvar,
}

impl Lane {
    /// A lane with an empty pipe.
    pub(crate) fn new(alloc: Global) -> Result<Lane, NoMemory> {
        Ok(Lane {
            pipe: Mutex::new(Pipe::new(alloc)?),
            changed: Condvar::new(),
        })
    }

    /// A lane whose writer and whose reader are gone.
    pub(crate) fn ended(alloc: Global) -> Result<Lane, NoMemory> {
        let mut pipe = Pipe::new(alloc)?;
        pipe.end_writer();
        pipe.end_reader();
        Ok(Lane {
            pipe: Mutex::new(pipe),
            changed: Condvar::new(),
        })
    }

    /// Waits for bytes, and reads them into the front of `room`; `None` at the end of the pipe.
    pub(crate) fn read<R: Wait>(&self, rt: &R, room: &mut [u8]) -> Option<usize>
        requires { 0 < length room.old }
        ensures { IfSome result (λ n. (0 < n) × (n ≤ length room.new)) }
    {
        let mut pipe = self.pipe.lock(rt);
        for _ in rt.forever() {
            match pipe.take(room) {
                Found::Bytes(count) => {
                    self.changed.notify_all();
                    return Some(count);
                }
                Found::End => return None,
                Found::Nothing => pipe = self.changed.wait(rt, pipe),
            }
        }
        unreachable!()
    }

    /// Waits for room, and writes the front of `piece`; `None` where the reader is gone.
    pub(crate) fn write<R: Wait>(&self, rt: &R, piece: &[u8]) -> Option<usize>
        requires { 0 < length piece.now }
        ensures { IfSome result (λ n. (0 < n) × (n ≤ length piece.now)) }
    {
        let mut pipe = self.pipe.lock(rt);
        for _ in rt.forever() {
            match pipe.put(piece) {
                Put::Bytes(count) => {
                    self.changed.notify_all();
                    return Some(count);
                }
                Put::NoReader => return None,
                Put::Full => pipe = self.changed.wait(rt, pipe),
            }
        }
        unreachable!()
    }

    /// Waits until a read won't wait, for `most` milliseconds at most. Answers whether it won't.
    pub(crate) fn ready<R: Wait + Clock>(&self, rt: &R, most: u32) -> bool {
        let most = Duration::from_millis(u64::from(most));
        let pipe = self.pipe.lock(rt);
        let (pipe, _) = self
            .changed
            .wait_timeout_while(rt, pipe, most, |pipe| !pipe.is_ready());
        pipe.is_ready()
    }

    /// Ends the writer.
    pub(crate) fn end_writer<R: Wait>(&self, rt: &R) {
        self.pipe.lock(rt).end_writer();
        self.changed.notify_all();
    }

    /// Ends the reader.
    pub(crate) fn end_reader<R: Wait>(&self, rt: &R) {
        self.pipe.lock(rt).end_reader();
        self.changed.notify_all();
    }
}
