//! Where a frame stands.

use crate::answers::Count;
use rh_line::Leg;
use rh_sig::Pipe;

/// Where a frame stands: on which leg and pipe, at which place of it, and behind how many packets.
#[derive(Clone, Copy)]
pub struct Heading {
    pub leg: Leg,
    pub pipe: Option<Pipe>,
    pub place: u64,
    pub count: Count,
}
