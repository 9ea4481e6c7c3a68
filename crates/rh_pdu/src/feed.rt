//! What a framer answers to a piece of the stream.

use crate::fault::HeadFault;

/// What became of a piece.
#[derive(Clone, Copy, Debug, PartialEq, Eq)]
pub enum Feed {
    /// All of the piece was used, and no frame is whole: more bytes are needed.
    Need,
    /// A frame of `len` bytes is whole. It ended after `used` bytes of the piece; the rest is to be
    /// fed again.
    Frame { used: usize, len: usize },
    /// The header that begins after `place` bytes of the stream breaks a rule.
    Fault { place: u64, fault: HeadFault },
}

/// What a buffer holds once a piece was put behind the bytes held.
#[derive(Clone, Copy, Debug, PartialEq, Eq)]
pub(crate) enum Put {
    /// This many bytes, of an unfinished frame.
    Part(usize),
    /// A whole header, which breaks a rule.
    Bad(HeadFault),
    /// A whole frame, and this long.
    Whole(usize),
}
