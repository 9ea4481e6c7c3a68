//! Why a node stops.

use rh_http::Refusal;
use rh_line::Cause;

/// Why a node stops, and how it refuses the client's request where it does.
#[derive(Clone, Copy)]
pub struct Stop {
    pub cause: Cause,
    pub refusal: Option<Refusal>,
}
