//! Why reading a whole source can fail.

/// Why reading a whole source failed.
#[derive(Clone, Copy, Debug, PartialEq, Eq)]
pub enum ReadWholeError {
    /// The source failed, and its count of faults rose.
    ReadFault,
    /// More bytes came than the limit allows.
    TooLong,
    /// There was no memory for the bytes.
    NoMemory,
}
