//! What is told of bytes at whose front a head is to be.

use crate::fault::HttpFault;

/// The most bytes of a head, with its blank line (profile).
pub const GREATEST_HEAD: usize = 16_384;

/// The most fields of a head (profile).
pub const GREATEST_FIELDS: usize = 64;

/// What is at the front of bytes.
#[derive(Clone, Copy, Debug, PartialEq, Eq)]
pub enum Got<T> {
    /// No head ends yet, and one may.
    Need,
    /// A head, and its length in bytes.
    Head { value: T, len: usize },
    /// What is wrong first. `TooLong` is at 16,384 bytes, and each other fault at the end of the
    /// head.
    Fault { place: u32, fault: HttpFault },
}

/// Where the head at the front of bytes ends.
#[derive(Clone, Copy)]
pub(crate) enum Extent {
    /// It may end behind further bytes.
    Open,
    /// It cannot end within the most bytes of a head.
    Over,
    /// Behind so many bytes.
    Ends(usize),
}
