//! What a node is told.

use rh_line::Leg;
use rh_text::Bytes;

/// What a node is told of a leg, or of time.
#[derive(Drop)]
pub enum Event {
    /// A piece came on the leg.
    Comes { leg: Leg, piece: Bytes },
    /// The other side ended the leg in order.
    Ends(Leg),
    /// The leg failed, or it is wanted and cannot be connected.
    Breaks(Leg),
    /// The moment, in milliseconds.
    Passes(u64),
}
