//! The numbers of the words of roles, written out. This function does nothing: its contract is
//! the law.

ghost use Rattle.rh_role_words.specs.Numerals.{AreFixed};

/// Each number of this crate is that of its standard or of the profile.
pub fn numbers_are_fixed()
    ensures { AreFixed }
{}
