//! Directions whose ends are at one channel. This function does nothing: its contract is the law.

ghost use Rattle.std.specs.Prelude.{◌≡◌, []};
ghost use Rattle.law_order.specs.Routes.{Route, IsRoute};
ghost use Rattle.law_world_free.specs.AtOne.{GiveAll, HoldsNone, IsAtOne};

/// Where the taker's current channel comes by the proxy that reads the channel on which the giver
/// writes, the taker holds nothing of it, and the proxy and the giver nothing either as long as
/// the channel is not over: then no PDU of any channel up to the giver's is held by the taker or by
/// the proxy that reads the channel, and none is left to be put. Behind END and the handover mark
/// that is so in any case (profile).
pub fn nothing_is_held_at_one_channel()
    ensures { (r : Route) → IsRoute r → IsAtOne r → r.taker.shelves.now.held ≡ [] → GiveAll r
        → HoldsNone r }
{}
