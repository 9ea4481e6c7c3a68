//! What a seat knows. No value of these types is made: they stand in proofs alone, so what a seat
//! knows takes no memory.

use std::collections::LinkedList;

/// How far a seat is with a call.
pub enum Stage<E> {
    Idle,
    /// Its ticket isn't served yet.
    Waiting,
    /// Its ticket is served, and its event isn't entered yet.
    Holding,
    Entered,
    /// It took another seat in. What each of the two had seen begins what it has seen.
    Joined(LinkedList<E>, LinkedList<E>),
}

/// The view of a seat.
pub struct View<E> {
    /// A beginning of the history.
    pub seen: LinkedList<E>,
    /// The places of its own calls.
    pub mine: LinkedList<u64>,
    pub stage: Stage<E>,
    /// The ticket that it drew last.
    pub ticket: u64,
    /// Its parts of the turn.
    pub parts: u32,
}
