//! What a peer may do wrong with a window.

/// The type of the command that acknowledges (MS-RPCH 2.2.3.5.2). It is that of `rh_rts::kinds`,
/// and stands here too since windows know no packets and this crate stands on none.
pub const FLOW_CONTROL_ACK: u32 = 1;

/// A PDU that ends behind what its sender was told, in bytes from the channel's beginning.
#[derive(Clone, Copy, Debug, PartialEq, Eq)]
pub struct WindowExceeded {
    /// Where it ends.
    pub reached: u64,
    /// Where it was to end at the latest; 0 where nothing was told yet.
    pub edge: u64,
}

/// An acknowledgement that can't be true.
#[derive(Clone, Copy, Debug, PartialEq, Eq)]
pub struct BadAck {
    /// The type of the command, which is `FLOW_CONTROL_ACK`.
    pub command: u32,
    /// Its value that is wrong: the bytes received, or else the available window.
    pub value: u32,
}
