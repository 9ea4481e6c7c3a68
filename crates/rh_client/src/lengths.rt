//! The lengths of the packets on an OUT channel of which a client tells, in bytes (profile).

use rh_http::lengths::{OPENS_OUT, REPLACES_OUT};

/// The length of CONN/A1, which is the Content-Length of the first OUT request.
pub const CONN_A1_LEN: u32 = OPENS_OUT;
/// The lengths of OUT_R1/A3 and OUT_R2/C1 together, which are that of a successor's request.
pub const OUT_R1_A3_C1_LEN: u32 = REPLACES_OUT;
