//! Nodes that nothing closed. This function does nothing: its contract is the law.

ghost use Rattle.rh_inproxy.specs.State.{InProxy};
ghost use Rattle.rh_outproxy.specs.OutProxy.{OutProxy};
ghost use Rattle.rh_line.specs.declared.cause.Cause.{Cause};
ghost use Rattle.rh_client.specs.declared.state.ClientRole.{ClientRole};
ghost use Rattle.rh_server.specs.States.{Server};
ghost use Rattle.rh_record.specs.declared.answer.Who.{Who};
ghost use Rattle.rh_nodes.specs.Opening.{Makers};
ghost use Rattle.rh_nodes.specs.World.{World};
ghost use Rattle.law_node_history.specs.Changes.{Leads};
ghost use Rattle.law_node_history.specs.Closes.{IsClosedBy};
ghost use Rattle.law_node_history.specs.Histories.{IsNew, all_noted, nothing};
ghost use Rattle.law_node_history.specs.Standing.{MakesGoing};
ghost use Rattle.law_node_traces.specs.Traced.Ours.{AreOurs, deeds, rules};
ghost use Rattle.law_world_order.specs.Flows.{numbers_of};
ghost use Rattle.law_world_ways.specs.ExactPaths.GoingOn.{AllGoOn};

/// In each world of new roles that makes its proxies going, behind changes none of which closes a
/// node, all nodes go on; so does a proxy that was let go.
pub fn nodes_that_nothing_closed_go_on<K>()
    ensures { (m : Makers K InProxy OutProxy) (w v : World K ClientRole Server InProxy OutProxy)
        → IsNew w → (ours : AreOurs m w.company w.cast) → MakesGoing rules m
        → (leads : Leads rules m deeds w v)
        → ((node : Who) (why : Cause) → IsClosedBy rules m deeds w leads.changes node why → ⊥)
        → AllGoOn (numbers_of ours) (all_noted rules m deeds w nothing leads.changes) }
{}
