//! What is seen on far legs, and on near ones. This function does nothing: its contract is the law.

ghost use mathlib.Core.List.{IsPrefix};
ghost use Rattle.law_order.specs.Routes.{IsRoute, Route};
ghost use Rattle.law_audit.specs.FarAndNear.Seen.{IsSeenFar, IsSeenNear, Side, pdus_seen};

/// The PDUs that are seen on the far legs, in order and up to the first whose handover mark is not
/// seen, are a front of those that are seen so on the near legs, whatever broke.
pub fn what_is_seen_far_was_seen_near()
    ensures { (r : Route) (near far : Side) → IsRoute r → IsSeenNear r near → IsSeenFar r far
        → IsPrefix (pdus_seen far) (pdus_seen near) }
{}
