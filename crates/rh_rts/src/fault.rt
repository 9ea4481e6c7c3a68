//! What can be wrong with a packet, with its bytes and with the room for them.

ghost use Rattle.std.specs.Prelude.{◌≡◌};
ghost use Rattle.rh_rts.specs.declared.fault.DecodeFault.TheVariants as decode;
ghost use Rattle.rh_rts.specs.declared.fault.PacketFault.TheVariants as packet;

use rh_text::{Part, write_parts};
use std::alloc::AllocError;

/// What is wrong with bytes that are to be a packet.
#[derive(Clone, Copy, Debug, PartialEq, Eq)]
pub enum RtsKind {
    /// A byte of the header that is fixed has another value.
    BadHeader,
    /// frag_length isn't the number of bytes.
    BadLength,
    /// A bit that is no flag is set.
    BadFlags,
    /// The bytes end before the header or the command does.
    CutShort,
    /// A type above 14, or a destination above 3.
    BadType,
    /// An AddressType above 1.
    BadAddressType,
    /// A ConformanceCount above 65,535 bytes.
    BadCount,
    /// Bytes are left behind the last command.
    Left,
}

/// The first part that is wrong, behind `place` bytes.
#[derive(Clone, Copy, Debug, PartialEq, Eq)]
pub struct RtsFault {
    pub place: usize,
    pub kind: RtsKind,
}

impl RtsKind {
    ghost use Rattle.rh_rts.specs.Texts.{kind_name};

    /// The name of what is wrong.
    pub fn name(&self) -> &'static str
        ensures { result.now ≡ kind_name self.now }
    {
        match self {
            RtsKind::BadHeader => "BadHeader",
            RtsKind::BadLength => "BadLength",
            RtsKind::BadFlags => "BadFlags",
            RtsKind::CutShort => "CutShort",
            RtsKind::BadType => "BadType",
            RtsKind::BadAddressType => "BadAddressType",
            RtsKind::BadCount => "BadCount",
            RtsKind::Left => "Left",
        }
    }
}

impl RtsFault {
    ghost use Rattle.std.specs.Prelude.{string_bytes};
    ghost use Rattle.rh_rts.specs.Texts.{fault_text};
    ghost use Rattle.rh_text.specs.Writing.{Writes};

    /// Appends `fault KIND PLACE`.
    ///
    /// Fails where there is no memory for the text; a front of what was to come may stand there
    /// then.
    pub fn write(&self, out: &mut String) -> Result<(), AllocError>
        ensures { Writes (fault_text self.now) result (string_bytes out.old)
            (string_bytes out.new) }
    {
        write_parts(
            &[
                Part::Text("fault "),
                Part::Text(self.kind.name()),
                Part::Text(" "),
                Part::Number(self.place as u64),
            ],
            out,
        )
    }
}

/// Why bytes gave no packet.
#[derive(Clone, Copy, Debug, PartialEq, Eq)]
pub enum DecodeFault {
    /// They are none: what is wrong, behind `place` bytes.
    Rts { place: usize, kind: RtsKind },
    /// There was no memory for the commands.
    NoMemory,
}

/// Why parts are no packet.
#[derive(Clone, Copy, Debug, PartialEq, Eq)]
pub enum PacketFault {
    /// The flags, of which a bit is set that is no flag.
    BadFlags(u16),
    /// The sum of the parts, in bytes, which is above 65,535. A sum above 2^64 - 1 is told as that.
    TooLong(u64),
    /// The first destination that is above 3.
    BadDestination(u32),
    /// There was no memory for the commands.
    NoMemory,
}

/// The room is shorter than the packet, which needs so many bytes.
#[derive(Clone, Copy, Debug, PartialEq, Eq)]
pub struct NoRoom {
    pub need: usize,
}

impl From<AllocError> for DecodeFault {
    ghost from_gives = { λ _ fault. fault ≡ decode.NoMemory };

    fn from(_: AllocError) -> DecodeFault {
        DecodeFault::NoMemory
    }
}

impl From<AllocError> for PacketFault {
    ghost from_gives = { λ _ fault. fault ≡ packet.NoMemory };

    fn from(_: AllocError) -> PacketFault {
        PacketFault::NoMemory
    }
}
