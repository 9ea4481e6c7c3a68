//! The legs of a virtual connection.

/// The greatest number of a leg.
pub const LAST_NUMBER: u32 = 4_294_967_295;

/// Between which roles a leg runs. The order is that in which legs are looked at.
#[derive(Clone, Copy, Debug, PartialEq, Eq)]
pub enum LegKind {
    /// Client and out proxy, `co` in texts.
    ClientOut,
    /// Out proxy and server, `os`.
    OutServer,
    /// Client and in proxy, `ci`.
    ClientIn,
    /// In proxy and server, `is`.
    InServer,
}

/// One leg of a channel.
#[derive(Clone, Copy, Debug, PartialEq, Eq)]
pub struct Leg {
    pub kind: LegKind,
    /// The number of its channel, from 1; a successor has the next one. There is no leg 0.
    pub number: u32,
}
