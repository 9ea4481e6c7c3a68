//! Where RPC PDUs stand in a stream.

ghost use Rattle.std.specs.Prelude.{◌+◌, ◌<◌, ◌^◌};

/// Where an RPC PDU stands in a stream: 16 bytes, which are kept for each.
#[derive(Clone, Copy)]
pub(crate) struct Place {
    /// Behind how many bytes of the stream it begins.
    pub(crate) at: usize,
    /// How many bytes it has.
    pub(crate) len: usize,
    ghost fits: { at + len < 2 ^ 64 },
}
