//! The numbers of the common header, written out. This function does nothing: its contract is
//! the law.

ghost use Rattle.rh_pdu.specs.Numerals.{AreFixed};

/// Each number of this crate is that of its standard or of the profile.
pub fn numbers_are_fixed()
    ensures { AreFixed }
{}
