//! Whether a node goes on.

use crate::begun::Begun;
use rh_line::{Cause, Leg};

/// Whether a node goes on, or closed with its first cause.
#[derive(Drop)]
pub enum Course {
    Going,
    Closed(Cause),
    /// It closed, and refuses the client's request: so much of a head is left to draw on that leg.
    Refusing { cause: Cause, leg: Leg, rest: Begun },
}
