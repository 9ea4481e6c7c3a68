//! What is told of the two ends of a direction.

/// Whether the PDUs that were seen on the far legs are a front of those seen on the near legs.
#[derive(Clone, Copy, Debug, PartialEq, Eq)]
pub enum Prefixed {
    /// They are; how many were seen there and here.
    Yes { far: u32, near: u32 },
    /// The PDU at this place, from 0, is the first that is not the same, or not there, on the near
    /// legs.
    No { place: u32 },
}
