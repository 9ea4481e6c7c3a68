//! The nodes of a world of roles have room for what they forward. This function does nothing: its
//! contract is the law.

ghost use Rattle.std.specs.Prelude.{ℕ};
ghost use Rattle.rh_line.specs.declared.cause.Cause.TheVariants.{ControlFull};
ghost use Rattle.rh_line.specs.declared.leg.Leg.{Leg};
ghost use Rattle.rh_record.specs.declared.answer.Who.TheVariants.{Client as AtClient, In, Out};
ghost use Rattle.rh_record.specs.declared.answer.Who.TheVariants.{Server as AtServer};
ghost use Rattle.rh_inproxy.specs.State.{InProxy};
ghost use Rattle.rh_outproxy.specs.OutProxy.{OutProxy};
ghost use Rattle.rh_client.specs.declared.state.ClientRole.{ClientRole};
ghost use Rattle.rh_server.specs.States.{Server};
ghost use Rattle.rh_nodes.specs.World.{World};
ghost use Rattle.law_node_history.specs.Carried.{happened};
ghost use Rattle.law_node_history.specs.Changes.{Change, MayChange};
ghost use Rattle.law_node_history.specs.Closes.{ClosesNode};
ghost use Rattle.law_node_traces.specs.Traced.Cookies.{ByChanges};
ghost use Rattle.law_node_traces.specs.Traced.Ours.{deeds, rules};
ghost use Rattle.law_node_traces.specs.Traced.Recordings.{history_at};
ghost use Rattle.law_world_order.specs.Premises.{AreDistinct, AtEachMoment, InNewWorlds};

use crate::room::having::no_node_that_has_room_closes_for_a_full_leg;
use law_peers_forwarding::{a_server_has_room, an_out_proxy_has_room};
use law_peers_room::an_in_proxy_has_room;
use law_world_order::a_world_of_roles_is_at_a_moment;

/// In each world of new roles whose numbers are in their ranges, at every moment that changes of
/// lines and half steps reach: no further change closes the client with `ControlFull`, whichever
/// leg is named; nor another node, where no two legs of the client of one kind came up under one
/// cookie by that moment (profile).
pub fn no_node_lacks_room<K>()
    ensures client { InNewWorlds K (λ m w ours.
        (v : World K ClientRole Server InProxy OutProxy) → ByChanges rules m deeds w v
        → (change : Change) → MayChange rules v change → (full : Leg)
        → ClosesNode rules v change AtClient (ControlFull full) → ⊥) }
    ensures in_proxies { InNewWorlds K (λ m w ours. AtEachMoment m w (λ v by.
        AreDistinct (happened (history_at m w v by.leads).client)
        → (change : Change) → MayChange rules v change → (k : ℕ) (full : Leg)
        → ClosesNode rules v change (In k) (ControlFull full) → ⊥)) }
    ensures out_proxies { InNewWorlds K (λ m w ours. AtEachMoment m w (λ v by.
        AreDistinct (happened (history_at m w v by.leads).client)
        → (change : Change) → MayChange rules v change → (k : ℕ) (full : Leg)
        → ClosesNode rules v change (Out k) (ControlFull full) → ⊥)) }
    ensures server { InNewWorlds K (λ m w ours. AtEachMoment m w (λ v by.
        AreDistinct (happened (history_at m w v by.leads).client)
        → (change : Change) → MayChange rules v change → (full : Leg)
        → ClosesNode rules v change AtServer (ControlFull full) → ⊥)) }
{
    no_node_that_has_room_closes_for_a_full_leg::<K>();
    a_server_has_room();
    an_in_proxy_has_room();
    an_out_proxy_has_room();
    a_world_of_roles_is_at_a_moment::<K>();
}
