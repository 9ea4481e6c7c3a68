//! The numbers of lines and legs, written out. This function does nothing: its contract is the law.

ghost use Rattle.rh_line.specs.Numerals.{AreFixed};

/// Each number of this crate is that of its standard or of the profile, and the lengths of the
/// requests for an OUT channel are those of its packets.
pub fn numbers_are_fixed()
    ensures { AreFixed }
{}
