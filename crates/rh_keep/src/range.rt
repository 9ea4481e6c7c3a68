//! Which lifetimes a channel may have, in bytes (profile).

/// The least lifetime of a channel.
pub const LEAST_LIFETIME: u32 = 131_072;
/// The greatest lifetime of a channel.
pub const GREATEST_LIFETIME: u32 = 2_147_483_648;
/// The lifetime of a channel where nothing else is said.
pub const DEFAULT_LIFETIME: u32 = 1_073_741_824;
