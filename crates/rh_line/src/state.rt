//! What a role is, and what it answers.

use crate::cause::Cause;

/// Where a role is in its life.
#[derive(Clone, Copy, Debug, PartialEq, Eq)]
pub enum State {
    /// Its legs are not all up, or their first packets have not all come.
    Opening,
    Open,
    /// It ended in order, and has no use for any leg.
    Ended,
    /// It closed, with the first cause.
    Closed(Cause),
}

/// What a role is behind an event.
#[derive(Clone, Copy, Debug, PartialEq, Eq)]
pub enum Verdict {
    /// It goes on.
    Going,
    /// It ended in order.
    Ended,
    /// It closed, with the first cause.
    Closed(Cause),
}

/// What an end answers where the next PDU is asked for.
#[derive(Clone, Copy, Debug, PartialEq, Eq)]
pub enum Take {
    /// A PDU of so many bytes, 16 to 8,192, which stand at the front of the room.
    Pdu(u16),
    /// None is there yet.
    Empty,
    /// The other end gives no more, and all that it gave was taken.
    Ended,
    /// The end closed, with this cause.
    Closed(Cause),
}
