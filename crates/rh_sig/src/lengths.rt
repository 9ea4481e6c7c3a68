//! The lengths of named packets that count in the lifetime of a channel, and the greatest one, in
//! bytes (MS-RPCH 2.2.3.5, 2.2.4; those of replacement and of a clean end are (profile)).

pub const CONN_B1_LEN: u16 = 104;

pub const CONN_C1_LEN: u16 = 44;

pub const IN_R1_A1_LEN: u16 = 88;

pub const IN_R1_A3_LEN: u16 = 52;

pub const IN_R1_A5_LEN: u16 = 40;

pub const IN_R2_A3_LEN: u16 = 28;

pub const OUT_R1_A1_LEN: u16 = 28;

pub const OUT_R1_A5_LEN: u16 = 44;

pub const OUT_R1_A7_LEN: u16 = 48;

pub const OUT_R1_A9_LEN: u16 = 24;

pub const END_A1_LEN: u16 = 24;

pub const END_B1_LEN: u16 = 24;

pub const ACK_TO_LEN: u16 = 56;

pub const PING_LEN: u16 = 20;

/// The most bytes that a named packet has: those of CONN/B2 with an address of IPv6 (MS-RPCH
/// 2.2.4.6).
pub const GREATEST_NAMED_LEN: u16 = 140;
