//! Why a channel is not replaced now.

use crate::leg::Leg;

/// Why an end does not replace a channel now. Nothing has changed then.
#[derive(Clone, Copy, Debug, PartialEq, Eq)]
pub enum RecycleFault {
    /// A replacement is under way or waits; the leg is the successor's of the one under way.
    Busy { under_way: Leg },
    /// The end is not open.
    NotOpen,
    /// The writing channel has the greatest number, 4,294,967,295.
    Last,
}
