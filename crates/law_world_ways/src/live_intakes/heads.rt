//! The bytes with which a client begins at the proxies. This function does nothing: its contract is
//! the law.

ghost use Rattle.std.specs.Prelude.{ℕ, false, true};
ghost use Rattle.rh_line.specs.declared.leg.Leg.{Leg};
ghost use Rattle.rh_client.specs.declared.state.ClientRole.{ClientRole};
ghost use Rattle.law_node_history.specs.Carried.{heard_on};
ghost use Rattle.law_node_begins.specs.ProxiesBegin.Pipes.{in_pipe, out_pipe};
ghost use Rattle.law_node_traces.specs.Traced.Recordings.{history_at};
ghost use Rattle.law_world_order.specs.FirstTexts.{IsPort};
ghost use Rattle.law_world_order.specs.Premises.{AtEachMoment, InNewWorlds};
ghost use Rattle.law_world_ways.specs.LiveIntakes.{BeginsNoEcho};

use law_moves::texts_are_whole;
use law_node_begins::{a_client_asks_by_its_requests, a_client_begins_with_a_request};
use law_node_history::{a_leg_is_read_at_its_ends, what_is_heard_was_drawn};
use law_node_traces::a_recording_of_roles_is_known;
use law_world_order::directions_are_joined;
use rh_client::ClientRole;
use rh_inproxy::InProxyRole;
use rh_outproxy::OutProxyRole;
use rh_server::ServerRole;

/// In each world of new roles whose numbers are in their ranges, where the port of the client's
/// server is one, at every moment that changes of lines and half steps reach: the bytes that came
/// to a proxy on a leg where a head comes first begin with none that asks for an echo
/// (MS-RPCH 2.1.2).
pub fn no_bytes_that_come_ask_for_an_echo<K>()
    ensures ins { InNewWorlds K (λ m w ours. IsPort ours.config.port
        → AtEachMoment m w (λ v by.
        (n : ℕ) (leg : Leg) → BeginsNoEcho true (in_pipe (ours.in_config n) leg)
        (heard_on leg ((history_at m w v by.leads).ins n)))) }
    ensures outs { InNewWorlds K (λ m w ours. IsPort ours.config.port
        → AtEachMoment m w (λ v by.
        (n : ℕ) (leg : Leg) → BeginsNoEcho false (out_pipe (ours.out_config n) leg)
        (heard_on leg ((history_at m w v by.leads).outs n)))) }
{
    directions_are_joined::<K>();
    what_is_heard_was_drawn::<K, ClientRole, ServerRole, InProxyRole, OutProxyRole>();
    a_leg_is_read_at_its_ends::<K, ClientRole, ServerRole, InProxyRole, OutProxyRole>();
    a_recording_of_roles_is_known::<K>();
    a_client_begins_with_a_request();
    a_client_asks_by_its_requests();
    texts_are_whole();
}
