//! The common header of connection-oriented PDUs (C706 12.6.3.1).

use crate::fault::HeadFault;
use crate::reading::{frag_of, head_fault, is_little, long_at, short_at};

/// The length of the common header, in bytes, and so the least frag_length.
pub const HEADER_LEN: usize = 16;
/// The greatest frag_length, in bytes (profile).
pub const GREATEST_FRAG: usize = 8192;
/// Where the version stands.
pub const VERSION_AT: usize = 0;
/// Where the minor version stands.
pub const MINOR_AT: usize = 1;
/// Where the kind of PDU, its PTYPE, stands.
pub const PTYPE_AT: usize = 2;
/// Where the flags stand.
pub const FLAGS_AT: usize = 3;
/// Where the data representation stands, whose first four bits are the byte order.
pub const ORDER_AT: usize = 4;
/// Where frag_length stands.
pub const FRAG_AT: usize = 8;
/// Where auth_length stands.
pub const AUTH_AT: usize = 10;
/// Where the number of the call stands.
pub const CALL_AT: usize = 12;
/// The version of the protocol.
pub const VERSION: u8 = 5;
/// The greatest minor version.
pub const GREATEST_MINOR: u8 = 1;
/// Integers have their least byte first where the data representation's first four bits are this.
pub const LITTLE_ENDIAN: u8 = 1;
/// The PTYPE of RTS PDUs (MS-RPCH 2.2.3.6).
pub const RTS: u8 = 20;

/// The fields of a header, as far as this library reads them.
#[derive(Clone, Copy, Debug, PartialEq, Eq)]
pub struct Header {
    /// The kind of PDU.
    pub ptype: u8,
    pub flags: u8,
    /// Whether integers have their least byte first.
    pub little: bool,
    /// The length of the whole PDU, in bytes: 16 to 8,192.
    pub frag: u16,
    /// The length of the authentication value, in bytes. Nothing checks it.
    pub auth: u16,
    /// The number of the call.
    pub call: u32,
}

impl Header {
    ghost use Rattle.std.specs.Prelude.{◌≡◌, MatchResult, Some, None};
    ghost use Rattle.rh_pdu.specs.Header.{head_fault, header_of};

    /// Reads a header, in its own byte order.
    ///
    /// Fails with the first of these that is not so: version 5, minor version 0 or 1, a byte order
    /// of 0 or 1, and a frag_length of 16 to 8,192 bytes. No other field is checked
    /// (C706 12.6.3.1).
    pub fn read(bytes: &[u8; HEADER_LEN]) -> Result<Header, HeadFault>
        ensures { MatchResult result
            (λ header. (head_fault bytes.now ≡ None) × (header ≡ header_of bytes.now))
            (λ fault. head_fault bytes.now ≡ Some fault) }
    {
        if let Some(fault) = head_fault(bytes) {
            return Err(fault);
        }
        Ok(Header {
            ptype: bytes[PTYPE_AT],
            flags: bytes[FLAGS_AT],
            little: is_little(bytes),
            frag: frag_of(bytes),
            auth: short_at(bytes, AUTH_AT),
            call: long_at(bytes, CALL_AT),
        })
    }
}
