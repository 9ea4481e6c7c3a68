//! No node of a world of roles closes for a full leg, where its role has room. This function does
//! nothing: its contract is the law.

ghost use Rattle.std.specs.Prelude.{ℕ};
ghost use Rattle.rh_line.specs.declared.cause.Cause.TheVariants.{ControlFull};
ghost use Rattle.rh_line.specs.declared.leg.Leg.{Leg};
ghost use Rattle.rh_record.specs.declared.answer.Who.TheVariants.{Client as AtClient, In, Out};
ghost use Rattle.rh_record.specs.declared.answer.Who.TheVariants.{Server as AtServer};
ghost use Rattle.rh_inproxy.specs.State.{InProxy};
ghost use Rattle.rh_outproxy.specs.OutProxy.{OutProxy};
ghost use Rattle.rh_client.specs.declared.state.ClientRole.{ClientRole};
ghost use Rattle.rh_server.specs.States.{Server};
ghost use Rattle.rh_nodes.specs.World.{World};
ghost use Rattle.law_node_history.specs.Carried.{happened};
ghost use Rattle.law_node_history.specs.Changes.{Change, MayChange};
ghost use Rattle.law_node_history.specs.Closes.{ClosesNode};
ghost use Rattle.law_node_traces.specs.Traced.Cookies.{ByChanges};
ghost use Rattle.law_node_traces.specs.Traced.Ours.{deeds, rules};
ghost use Rattle.law_node_traces.specs.Traced.Recordings.{history_at};
ghost use Rattle.law_world_order.specs.Premises.{AreDistinct, AtEachMoment, InNewWorlds};
ghost use Rattle.law_world_expected.specs.Roles.{OfClient, WorldsExpect};
ghost use Rattle.law_world_expected.specs.Roomy.{InHasRoom, OutHasRoom, ServerHasRoom};

use crate::known::roles_know_their_legs;
use law_world_windows::{nodes_keep_their_laws, what_was_put_reads_back, worlds_keep_their_laws};

/// In each world of new roles whose numbers are in their ranges, at every moment that changes of
/// lines and half steps reach: no further change closes the client with `ControlFull`, whichever
/// leg is named. Nor does one close another node so, where no two legs of the client of one kind
/// came up under one cookie, if at each such moment of each such world in proxies have room for
/// what the client put next on the legs that they read, out proxies for what the server put next,
/// and the server for what in proxies did (MS-RPCH 3.2; profile).
pub fn no_node_that_has_room_closes_for_a_full_leg<K>()
    ensures client { InNewWorlds K (λ m w ours.
        (v : World K ClientRole Server InProxy OutProxy) → ByChanges rules m deeds w v
        → (change : Change) → MayChange rules v change → (full : Leg)
        → ClosesNode rules v change AtClient (ControlFull full) → ⊥) }
    ensures in_proxies { WorldsExpect K (OfClient AreDistinct) InHasRoom
        → InNewWorlds K (λ m w ours. AtEachMoment m w (λ v by.
        AreDistinct (happened (history_at m w v by.leads).client)
        → (change : Change) → MayChange rules v change → (k : ℕ) (full : Leg)
        → ClosesNode rules v change (In k) (ControlFull full) → ⊥)) }
    ensures out_proxies { WorldsExpect K (OfClient AreDistinct) OutHasRoom
        → InNewWorlds K (λ m w ours. AtEachMoment m w (λ v by.
        AreDistinct (happened (history_at m w v by.leads).client)
        → (change : Change) → MayChange rules v change → (k : ℕ) (full : Leg)
        → ClosesNode rules v change (Out k) (ControlFull full) → ⊥)) }
    ensures server { WorldsExpect K (OfClient AreDistinct) ServerHasRoom
        → InNewWorlds K (λ m w ours. AtEachMoment m w (λ v by.
        AreDistinct (happened (history_at m w v by.leads).client)
        → (change : Change) → MayChange rules v change → (full : Leg)
        → ClosesNode rules v change AtServer (ControlFull full) → ⊥)) }
{
    roles_know_their_legs();
    worlds_keep_their_laws::<K>();
    what_was_put_reads_back();
    nodes_keep_their_laws();
}
