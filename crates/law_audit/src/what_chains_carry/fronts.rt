//! Fronts of what chains carried. This function does nothing: its contract is the law.

ghost use Rattle.std.specs.Prelude.{◌≡◌, List, length};
ghost use Rattle.rh_audit.specs.Audits.{prefixed};
ghost use Rattle.rh_audit.specs.Chains.{Leg, joined};
ghost use Rattle.rh_audit.specs.declared.prefixed.Prefixed.TheVariants.{Yes};
ghost use Rattle.law_order.specs.Routes.{IsRoute, Route};
ghost use Rattle.law_audit.specs.FarAndNear.Seen.{IsSeenFar, IsSeenNear, Side};
ghost use Rattle.law_audit.specs.Carrying.Fronts.{AreLegsOf};

use crate::laws_of_order::what_is_seen_far_was_seen_near;

/// Where the legs of a chain tell what is seen on the far legs of a route, in order of their
/// numbers, and those of another what is seen on the near ones, an audit says yes.
pub fn what_is_seen_far_is_a_front()
    ensures { (r : Route) (near far : Side) (near_legs far_legs : List Leg) → IsRoute r
        → IsSeenNear r near → IsSeenFar r far → AreLegsOf near near_legs
        → AreLegsOf far far_legs → prefixed (joined far_legs) (joined near_legs)
        ≡ Yes (length (joined far_legs)) (length (joined near_legs)) }
{
    what_is_seen_far_was_seen_near();
}
