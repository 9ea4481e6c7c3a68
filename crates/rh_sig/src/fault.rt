//! Why a packet is no named one.

/// Why a packet is no named one with values in range.
#[derive(Clone, Copy, Debug, PartialEq, Eq)]
pub enum SigFault {
    /// No name has these flags and commands on that pipe.
    Unknown,
    /// It has a name, and this is the first command whose value is out of range: its type (MS-RPCH
    /// 2.2.3.5), and the value.
    OutOfRange { command: u32, value: u32 },
}
