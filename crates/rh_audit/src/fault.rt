//! What is wrong with a line, and with a capture.

use rh_sig::Pipe;
use std::alloc::AllocError;

/// Why a text is no line of a capture.
#[derive(Clone, Copy, Debug, PartialEq, Eq)]
pub enum SeenRefused {
    /// No line is spelled so.
    Grammar,
    /// There was no memory for the bytes of the line.
    NoMemory,
}

impl From<AllocError> for SeenRefused {
    ghost use Rattle.std.specs.Prelude.{◌≡◌};
    ghost use Rattle.rh_audit.specs.declared.fault.SeenRefused.TheVariants.{NoMemory};

    ghost from_gives = { λ _ refused. refused ≡ NoMemory };

    fn from(_: AllocError) -> SeenRefused {
        SeenRefused::NoMemory
    }
}

/// What is wrong with the legs of a capture.
#[derive(Clone, Copy, Debug, PartialEq, Eq)]
pub enum AuditFault {
    /// The bytes of the tag and pipe break a rule behind so many of them.
    Broken { tag: u64, pipe: Pipe, place: u64 },
    /// The tag has a first packet, and stands in no chain.
    Unchained { tag: u64 },
}
