//! Why a text is no capture.

use std::alloc::AllocError;

/// Why a text is no capture.
#[derive(Clone, Copy, Debug, PartialEq, Eq)]
pub enum CaptureRefused {
    /// The line with this number, from 1, is the first that is outside the grammar, or is missing.
    BadLine(u64),
    /// There was no memory for the lines.
    NoMemory,
}

impl From<AllocError> for CaptureRefused {
    ghost use Rattle.std.specs.Prelude.{◌≡◌};
    ghost use Rattle.rh_capture.specs.declared.refused.CaptureRefused.TheVariants.{NoMemory};

    ghost from_gives = { λ _ refused. refused ≡ NoMemory };

    fn from(_: AllocError) -> CaptureRefused {
        CaptureRefused::NoMemory
    }
}
