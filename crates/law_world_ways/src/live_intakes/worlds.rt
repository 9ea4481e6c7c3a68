//! What comes in a world of roles. This function does nothing: its contract is the law.

ghost use Rattle.std.specs.Prelude.{ℕ};
ghost use Rattle.rh_line.specs.declared.leg.Leg.{Leg};
ghost use Rattle.rh_shell.specs.Shells.{begun};
ghost use Rattle.rh_inproxy.specs.Machine as in_proxy;
ghost use Rattle.rh_inproxy.specs.State.{InProxy};
ghost use Rattle.rh_outproxy.specs.declared.out_proxy.TheConstants.{ROOMS};
ghost use Rattle.rh_outproxy.specs.Machine as out_proxy;
ghost use Rattle.rh_outproxy.specs.OutProxy.{OutProxy, new_proxy};
ghost use Rattle.rh_client.specs.declared.state.ClientRole.{ClientRole};
ghost use Rattle.rh_client.specs.Client as client;
ghost use Rattle.rh_server.specs.Servers as server;
ghost use Rattle.rh_server.specs.States.{Server};
ghost use Rattle.rh_nodes.specs.Opening.{Makers};
ghost use Rattle.rh_nodes.specs.World.{World};
ghost use Rattle.law_moves.specs.Moving.{after_end_events, after_events};
ghost use Rattle.law_node_history.specs.Histories.{IsNew};
ghost use Rattle.law_node_traces.specs.Traced.Cookies.{ByChanges};
ghost use Rattle.law_node_traces.specs.Traced.Ours.{AreOurs, deeds, rules};
ghost use Rattle.law_node_traces.specs.Traced.Recordings.{history_at};
ghost use Rattle.law_world_order.specs.FirstTexts.{IsPort};
ghost use Rattle.law_world_order.specs.Premises.{AtEachMoment, InNewWorlds};
ghost use Rattle.law_world_ways.specs.LiveIntakes.{ReadsLeg};

use crate::live_intakes::heads::no_bytes_that_come_ask_for_an_echo;
use crate::live_intakes::nodes::what_a_node_keeps_is_read;
use law_node_traces::a_recording_of_roles_is_known;
use law_world_order::what_is_put_is_legible;

/// In each world of new roles, at every moment that changes of lines and half steps reach: while a
/// node goes on, what comes on a leg of which it keeps an end is read. So it is at the client and
/// at the server whatever the numbers are, and at the proxies where these are in their ranges and
/// the port of the client's server is one.
pub fn what_comes_is_read<K>()
    ensures client { (m : Makers K InProxy OutProxy)
        (w : World K ClientRole Server InProxy OutProxy) → IsNew w
        → (ours : AreOurs m w.company w.cast)
        → (v : World K ClientRole Server InProxy OutProxy) (by : ByChanges rules m deeds w v)
        (leg : Leg)
        → ReadsLeg (after_end_events client.rules client.acts (client.first_client ours.config)
        (history_at m w v by.leads).client) leg }
    ensures server { (m : Makers K InProxy OutProxy)
        (w : World K ClientRole Server InProxy OutProxy) → IsNew w
        → (ours : AreOurs m w.company w.cast)
        → (v : World K ClientRole Server InProxy OutProxy) (by : ByChanges rules m deeds w v)
        (leg : Leg)
        → ReadsLeg (after_end_events server.rules server.acts (server.new_server ours.window)
        (history_at m w v by.leads).server) leg }
    ensures ins { InNewWorlds K (λ m w ours. IsPort ours.config.port
        → AtEachMoment m w (λ v by.
        (n : ℕ) (leg : Leg)
        → ReadsLeg (after_events in_proxy.rules (in_proxy.first_node (ours.in_config n))
        ((history_at m w v by.leads).ins n)) leg)) }
    ensures outs { InNewWorlds K (λ m w ours. IsPort ours.config.port
        → AtEachMoment m w (λ v by.
        (n : ℕ) (leg : Leg)
        → ReadsLeg (after_events out_proxy.rules (begun (new_proxy (ours.out_config n)) ROOMS)
        ((history_at m w v by.leads).outs n)) leg)) }
{
    no_bytes_that_come_ask_for_an_echo::<K>();
    what_a_node_keeps_is_read();
    what_is_put_is_legible::<K>();
    a_recording_of_roles_is_known::<K>();
}
