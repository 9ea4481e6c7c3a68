//! The numbers of generated recordings, written out. This function does nothing: its contract is
//! the law.

ghost use Rattle.rh_made.specs.Numerals.{AreFixed};

/// Each number of this crate is that of the profile.
pub fn numbers_are_fixed()
    ensures { AreFixed }
{}
