//! The numbers of named packets, written out. This function does nothing: its contract is the law.

ghost use Rattle.rh_sig.specs.Numerals.{AreFixed};

/// Each number of this crate is that of its standard or of the profile, and the lengths are those
/// of the packets.
#[tactic(auto, using(crate::proofs::Sizes::as_its_row))]
pub fn numbers_are_fixed()
    ensures { AreFixed }
{}
