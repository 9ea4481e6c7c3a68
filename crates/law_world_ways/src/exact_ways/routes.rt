//! Laws of one direction of a virtual connection. These functions do nothing: their contracts are
//! the laws.

ghost use Rattle.std.specs.Prelude.{◌≡◌, ◌<◌, ◌++◌, ℕ, [], true};
ghost use Rattle.law_order.specs.Items.{pdus};
ghost use Rattle.law_order.specs.Paths.{OnLegs, path};
ghost use Rattle.law_order.specs.Routes.{IsRoute, Route};
ghost use Rattle.law_world_ways.specs.ExactWays.Pdus.{HasAllPdus, IsBehindEnd};

/// Where each PDU that was put on a leg came or stands there, what was given is what was taken and
/// what is on its way.
pub fn pdus_on_all_legs_are_on_their_way()
    ensures { (r : Route) (on : OnLegs) → IsRoute r → HasAllPdus r on
        → r.giver.given ≡ r.taker.taken ++ path r on }
{}

/// Where END came to a proxy on a channel, no PDU was put on those that it reads behind that one,
/// no more is accepted, and none waits to be put.
pub fn nothing_is_put_behind_an_end()
    ensures { (r : Route) → IsRoute r → (n : ℕ) → 0 < n → IsBehindEnd r n
        → (pdus (r.sent n) ≡ []) × (r.giver.closing ≡ true) × (r.giver.queue ≡ []) }
{}
