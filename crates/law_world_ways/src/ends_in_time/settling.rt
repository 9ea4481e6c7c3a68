//! Settling ends legs. This function does nothing: its contract is the law.

ghost use Rattle.std.specs.Prelude.{ℕ};
ghost use Rattle.rh_company.specs.Company.{Rulebook};
ghost use Rattle.rh_nodes.specs.Giving.{Deeds};
ghost use Rattle.rh_nodes.specs.Opening.{Makers};
ghost use Rattle.rh_nodes.specs.Settling.{round, settle};
ghost use Rattle.rh_nodes.specs.World.{World};
ghost use Rattle.law_world_ways.specs.EndsInTime.Both.{AreUpAtBoth};
ghost use Rattle.law_world_ways.specs.EndsInTime.InTime.{EndsInTime};

/// Where each leg is up for both of its ends or for neither, a round of settling ends a leg only
/// where it is over: where one end of it has it up and all that it puts there drawn, and nothing of
/// that is in flight. So do all the rounds of a `settle` line; and they keep each leg up for both
/// of its ends or for neither.
pub fn settling_ends_legs_in_time<K, C, S, I, O>()
    ensures round { (r : Rulebook C S I O) (m : Makers K I O) (d : Deeds C S)
        (w : World K C S I O) → AreUpAtBoth w → EndsInTime r m d w (round r m d w).0 }
    ensures settle { (r : Rulebook C S I O) (m : Makers K I O) (d : Deeds C S) (rounds : ℕ)
        (w : World K C S I O) → AreUpAtBoth w → EndsInTime r m d w (settle r m d rounds w).0 }
    ensures both { (r : Rulebook C S I O) (m : Makers K I O) (d : Deeds C S)
        (w : World K C S I O) → AreUpAtBoth w → AreUpAtBoth (round r m d w).0 }
    ensures both_settled { (r : Rulebook C S I O) (m : Makers K I O) (d : Deeds C S) (rounds : ℕ)
        (w : World K C S I O) → AreUpAtBoth w → AreUpAtBoth (settle r m d rounds w).0 }
{}
