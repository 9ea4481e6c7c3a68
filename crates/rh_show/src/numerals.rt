//! The number of a text of packets, written out. This function does nothing: its contract is
//! the law.

ghost use Rattle.rh_show.specs.Numerals.{AreFixed};

/// The number of this crate is that of the profile.
pub fn numbers_are_fixed()
    ensures { AreFixed }
{}
