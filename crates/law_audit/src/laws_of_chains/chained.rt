//! Legs that replace one another stand in a chain. These functions do nothing: their contracts are
//! the laws.

ghost use Rattle.std.specs.List.{flat_map};
ghost use Rattle.std.specs.Prelude.{◌≡◌, ℕ, List, [], false};
ghost use Rattle.rh_line.specs.declared.leg.LegKind.{LegKind};
ghost use Rattle.rh_audit.specs.declared.seen.Seen.{Seen};
ghost use Rattle.rh_audit.specs.Audits.{is_left, unchained_in};
ghost use Rattle.law_audit.specs.Chains.Successors.{AreSuccessors, AreTagged, IsChained, IsTag};
ghost use Rattle.law_audit.specs.Chains.Successors.{mets_of_leg};

/// Where the tags of a capture are those of the legs of a kind by their numbers, and each leg whose
/// first packet was seen replaces the last one before it whose first packet was seen, but for the
/// first: the chain of the kind has these legs in the order of their numbers, whatever the order of
/// their tags, and no tag is left (profile).
pub fn successors_stand_in_a_chain()
    ensures { (kind : LegKind) (seen : List Seen) (tags : List ℕ) (tag : ℕ → ℕ) (most : ℕ)
        → AreTagged kind seen tags tag most
        → AreSuccessors (λ n. mets_of_leg kind seen (tag n))
        → IsChained kind seen tags tag most }
{}

/// Where no tag is left by any kind, an audit tells of none.
pub fn where_no_tag_is_left_none_is_told()
    ensures { (seen : List Seen) (tags : List ℕ)
        → ((kind : LegKind) (tag : ℕ) → IsTag tag tags → is_left seen tags tag kind ≡ false)
        → flat_map (unchained_in seen tags) tags ≡ [] }
{}
