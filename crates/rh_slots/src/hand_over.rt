//! How a keeper hands legs to the jobs that read and write them.

use std::sync::{Condvar, Mutex, Wait};

// What is handed over, and whether nothing comes behind it.
#[derive(Drop)]
struct Held<T: Drop> {
    leg: Option<T>,
    is_last: bool,
}

/// A place for one leg between the keeper of a node and a job that serves the node's legs.
#[derive(Drop)]
pub struct HandOver<T: Drop> {
    held: Mutex<Held<T>>,
    changed: Condvar,
}

impl<T: Drop> HandOver<T> {
    /// An empty place.
    pub fn new() -> HandOver<T> {
        HandOver {
            held: Mutex::new(Held {
                leg: None,
                is_last: false,
            }),
            changed: Condvar::new(),
        }
    }

    /// Puts a leg there, once the one before it was taken.
    pub fn put<R: Wait>(&self, rt: &R, leg: T) {
        let guard = self.held.lock(rt);
        let mut held = self
            .changed
            .wait_while(rt, guard, |held| held.leg.is_some());
        held.leg = Some(leg);
        drop(held);
        self.changed.notify_all();
    }

    /// Says that no further leg comes.
    pub fn end<R: Wait>(&self, rt: &R) {
        self.held.lock(rt).is_last = true;
        self.changed.notify_all();
    }

    /// Waits for the next leg and takes it; `None` where none comes.
    pub fn take<R: Wait>(&self, rt: &R) -> Option<T> {
        let guard = self.held.lock(rt);
        let mut held = self
            .changed
            .wait_while(rt, guard, |held| held.leg.is_none() && !held.is_last);
        let leg = held.leg.take();
        drop(held);
        self.changed.notify_all();
        leg
    }
}
