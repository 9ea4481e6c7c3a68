//! In which order the keepers of a proxy's nodes take their callers.

use std::sync::{Condvar, Mutex, Wait};

// The number of the next ticket, and of the one that is served.
#[derive(Clone, Copy)]
struct Numbers {
    next: u64,
    served: u64,
}

/// Lets the keeper wait for a caller that asked first, and no other one beside it.
#[derive(Drop)]
pub struct Queue {
    numbers: Mutex<Numbers>,
    moved: Condvar,
}

impl Queue {
    /// A queue of `nodes` keepers, which hold the tickets from 0 on. Ticket 0 is served.
    pub fn new(nodes: u64) -> Queue {
        Queue {
            numbers: Mutex::new(Numbers {
                next: nodes,
                served: 0,
            }),
            moved: Condvar::new(),
        }
    }

    /// A ticket behind all others.
    pub fn ticket<R: Wait>(&self, rt: &R) -> u64 {
        let mut numbers = self.numbers.lock(rt);
        let ticket = numbers.next;
        numbers.next = ticket.wrapping_add(1);
        ticket
    }

    /// Waits until this ticket is served.
    pub fn wait<R: Wait>(&self, rt: &R, ticket: u64) {
        let guard = self.numbers.lock(rt);
        let _numbers = self
            .moved
            .wait_while(rt, guard, |numbers| numbers.served != ticket);
    }

    /// Serves the next ticket.
    pub fn leave<R: Wait>(&self, rt: &R) {
        {
            let mut numbers = self.numbers.lock(rt);
            numbers.served = numbers.served.wrapping_add(1);
        }
        self.moved.notify_all();
    }
}
