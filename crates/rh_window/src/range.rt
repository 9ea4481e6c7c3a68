//! The sizes that a receive window may have (profile).

/// The least receive window, in bytes. It has room for the longest RPC PDU, which is as long.
pub const LEAST_WINDOW: u32 = 8_192;
/// The greatest receive window, in bytes.
pub const GREATEST_WINDOW: u32 = 262_144;
/// The receive window where nothing else is said, in bytes.
pub const DEFAULT_WINDOW: u32 = 65_536;
