//! What a line answers where the next PDU is asked for.

/// What a line answers where the next PDU is asked for.
#[derive(Clone, Copy, Debug, PartialEq, Eq)]
pub enum LineTake {
    /// A PDU of so many bytes, 16 to 8,192, which stand at the front of the room.
    Pdu(u16),
    /// None is there.
    Empty,
    /// None is there, and END came on the current channel or on one before it.
    Ended,
}
