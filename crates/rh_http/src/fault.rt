//! What can be wrong with a head, and with a host.

use thiserror::Error;

/// The first rule that a head breaks, in the order in which they are tried.
#[derive(Clone, Copy, Debug, PartialEq, Eq, Error)]
pub enum HttpFault {
    /// 16,384 bytes are there, and no blank line ends within them.
    #[error("no blank line ends within 16,384 bytes")]
    TooLong,
    /// The bytes are no one head of at most 64 fields.
    #[error("the bytes are no head of at most 64 fields")]
    Syntax,
    /// Another method than that of the channel.
    #[error("the method is not that of the channel")]
    Method,
    /// Another path than the two of the proxies.
    #[error("the path is not that of a proxy")]
    Path,
    /// No host and port behind the path.
    #[error("the target names no host and port")]
    Target,
    /// No length that is taken.
    #[error("the content length is missing, doubled or out of range")]
    Length,
}

/// Why a text is no host.
#[derive(Clone, Copy, Debug, PartialEq, Eq, Error)]
pub enum HostFault {
    /// It has no characters.
    #[error("a host has at least one character")]
    Empty,
    /// It has so many bytes, which is more than 255.
    #[error("a host has at most 255 characters, not {0}")]
    TooLong(usize),
    /// The first byte, behind so many, that is no letter, digit, `-`, `.`, `_` or `@`.
    #[error("byte {byte} at {place} may not stand in a host")]
    Character { place: usize, byte: u8 },
}
