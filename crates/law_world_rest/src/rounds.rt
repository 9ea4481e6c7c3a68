//! A round of settling that reports nothing. This function does nothing: its contract is the law.

ghost use Rattle.std.specs.Prelude.{◌≡◌};
ghost use Rattle.rh_company.specs.Company.{Rulebook};
ghost use Rattle.rh_nodes.specs.Giving.{Deeds};
ghost use Rattle.rh_nodes.specs.Opening.{Makers};
ghost use Rattle.rh_nodes.specs.Settling.{round};
ghost use Rattle.rh_nodes.specs.World.{World};
ghost use Rattle.law_world_ways.specs.EndsInTime.Both.{AreUpAtBoth};
ghost use Rattle.law_world_rest.specs.Rest.{IsAtRest, IsSilent};
ghost use Rattle.law_world_rest.specs.Steady.{AreSteady};

/// Where each leg is up for both of its ends or for neither, each message that a node puts has
/// bytes, and a take where no PDU is there changes nothing: a round of settling that reports
/// nothing leaves the world as it was, and at rest. So all its steps are steps of that one world.
pub fn a_silent_round_leaves_the_world_at_rest<K, C, S, I, O>()
    ensures same { (r : Rulebook C S I O) (m : Makers K I O) (d : Deeds C S)
        (w : World K C S I O) → AreUpAtBoth w → AreSteady r d w.company
        → IsSilent (round r m d w) → (round r m d w).0 ≡ w }
    ensures rest { (r : Rulebook C S I O) (m : Makers K I O) (d : Deeds C S)
        (w : World K C S I O) → AreUpAtBoth w → AreSteady r d w.company
        → IsSilent (round r m d w) → IsAtRest r m d w }
{}
