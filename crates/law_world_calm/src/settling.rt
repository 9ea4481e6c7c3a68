//! What settling tells the nodes whose legs it ends. This function does nothing: its contract is the
//! law.

ghost use Rattle.std.specs.Prelude.{ℕ};
ghost use Rattle.rh_line.specs.declared.cause.Cause.TheVariants.{LegBroken};
ghost use Rattle.rh_line.specs.declared.leg.Leg.{Leg};
ghost use Rattle.rh_inproxy.specs.State.{InProxy};
ghost use Rattle.rh_outproxy.specs.OutProxy.{OutProxy};
ghost use Rattle.rh_client.specs.declared.state.ClientRole.{ClientRole};
ghost use Rattle.rh_server.specs.States.{Server};
ghost use Rattle.rh_record.specs.declared.answer.Answer.TheVariants.{NodeClosed};
ghost use Rattle.rh_record.specs.declared.answer.Who.{Who};
ghost use Rattle.rh_record.specs.declared.line.Line.TheVariants.{Settle};
ghost use Rattle.rh_nodes.specs.Opening.{Makers};
ghost use Rattle.rh_nodes.specs.Steps.{step};
ghost use Rattle.rh_nodes.specs.World.{World};
ghost use Rattle.law_node_history.specs.Changes.{Leads};
ghost use Rattle.law_node_history.specs.Closes.{IsOneOf};
ghost use Rattle.law_node_history.specs.Histories.{IsNew};
ghost use Rattle.law_node_traces.specs.Traced.Ours.{AreOurs, deeds, rules};
ghost use Rattle.law_world_ways.specs.EndsInTime.Both.{AreUpAtBoth};
ghost use Rattle.std.specs.Prelude.{◌≡◌, []};

use law_node_causes::causes_come_from_their_events;
use law_node_traces::a_recording_of_roles_is_known;
use rh_client::ClientRole;
use rh_inproxy::InProxyRole;
use rh_outproxy::OutProxyRole;
use rh_server::ServerRole;

/// In each world that changes lead to from new roles, where each leg is up for both of its ends or
/// for neither: a `settle` line reports no node as closed since a leg broke. The end that is told
/// first that a leg ends has finished it, and to that it is nothing.
pub fn no_leg_breaks_for_a_node_by_settling<K>()
    ensures { (m : Makers K InProxy OutProxy) (first w : World K ClientRole Server InProxy OutProxy)
        → IsNew first → AreOurs m first.company first.cast → Leads rules m deeds first w
        → AreUpAtBoth w → w.closed ≡ [] → (rounds : ℕ) (node : Who) (leg : Leg)
        → IsOneOf (NodeClosed node (LegBroken leg)) (step rules m deeds (Settle rounds) w).1 → ⊥ }
{
    a_recording_of_roles_is_known::<K>();
    causes_come_from_their_events::<ClientRole>();
    causes_come_from_their_events::<ServerRole>();
    causes_come_from_their_events::<InProxyRole>();
    causes_come_from_their_events::<OutProxyRole>();
}
