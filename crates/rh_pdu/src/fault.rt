//! What can be wrong with a header, and with a PDU.

use thiserror::Error;

/// The first rule that a header breaks.
#[derive(Clone, Copy, Debug, PartialEq, Eq)]
pub enum HeadFault {
    /// The version, which is to be 5.
    Version(u8),
    /// The minor version, which is to be 0 or 1.
    Minor(u8),
    /// The first byte of the data representation, whose high four bits are to be 0 or 1.
    ByteOrder(u8),
    /// The frag_length, which is below 16 bytes.
    TooShort(u16),
    /// The frag_length, which is above 8,192 bytes.
    TooLong(u16),
}

/// Why bytes are no PDU that may be sent or delivered.
#[derive(Clone, Copy, Debug, PartialEq, Eq, Error)]
pub enum PduFault {
    /// This many bytes are there, fewer than a header has.
    #[error("{0} bytes are no whole header")]
    Cut(usize),
    /// The header breaks a rule.
    #[error("the header breaks a rule: {0:?}")]
    Head(HeadFault),
    /// An RTS PDU, which a virtual connection keeps for itself (MS-RPCH 2.2.3.6).
    #[error("an RTS PDU")]
    Rts,
    /// The header says `frag` bytes, and `len` are there.
    #[error("frag_length is {frag} where {len} bytes are there")]
    Length { frag: u16, len: usize },
}
