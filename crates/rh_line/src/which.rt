//! The two channels of a line at its receiver.

/// A channel of a line: the one from which is taken, or its successor.
#[derive(Clone, Copy, Debug, PartialEq, Eq)]
pub enum Which {
    Current,
    Next,
}
