//! What nodes put in a world at rest. This function does nothing: its contract is the law.

ghost use Rattle.std.specs.Prelude.{◌≡◌, true};
ghost use Rattle.rh_line.specs.declared.leg.Leg.{Leg};
ghost use Rattle.rh_company.specs.Company.{Rulebook};
ghost use Rattle.rh_nodes.specs.Breaking.{is_up};
ghost use Rattle.rh_nodes.specs.Giving.{Deeds};
ghost use Rattle.rh_nodes.specs.Opening.{Makers};
ghost use Rattle.rh_nodes.specs.World.{World};
ghost use Rattle.law_world_ways.specs.EndsInTime.Both.{AreUpAtBoth};
ghost use Rattle.law_world_rest.specs.Rest.{IsAtRest};
ghost use Rattle.law_world_rest.specs.Steady.{AreSteady};
ghost use Rattle.law_world_waits.specs.Puts.{PutNothing};

/// In a world at rest in which each leg is up for both of its ends or for neither, and each message
/// that a node puts has bytes: on a leg that is up no node that goes on has begun anything that it
/// did not draw, and its role puts nothing there.
pub fn nothing_is_put_at_rest<K, C, S, I, O>()
    ensures { (r : Rulebook C S I O) (m : Makers K I O) (d : Deeds C S) (w : World K C S I O)
        → AreUpAtBoth w → AreSteady r d w.company → IsAtRest r m d w → (leg : Leg) → is_up w leg ≡ true
        → PutNothing r w leg }
{}
