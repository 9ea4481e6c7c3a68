//! What the bytes of a leg are.

/// What the next bytes of a leg are.
#[derive(Clone, Copy)]
pub enum Stage {
    /// A request or a response.
    Head,
    /// The greeting of a server.
    Greeting,
    /// RTS packets and RPC PDUs.
    Frames,
    /// The body of an echo request, which nobody reads.
    PassedOver,
    /// Nothing is read any more: a header was at fault, or too many bytes came.
    Shut,
}

/// The body behind a head.
#[derive(Clone, Copy)]
pub struct Body {
    /// How many of its bytes came.
    pub came: u64,
    /// How many bytes the head told.
    pub length: u32,
}
