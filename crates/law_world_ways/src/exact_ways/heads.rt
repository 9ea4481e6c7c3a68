//! The heads that come to proxies. This function does nothing: its contract is the law.

ghost use Rattle.std.specs.Prelude.{ℕ, false, true};
ghost use Rattle.std.specs.List.{AllByRecursion};
ghost use Rattle.rh_inproxy.specs.Machine as in_proxy;
ghost use Rattle.rh_inproxy.specs.State as in_state;
ghost use Rattle.rh_outproxy.specs.declared.out_proxy.TheConstants.{ROOMS};
ghost use Rattle.rh_outproxy.specs.Machine as out_proxy;
ghost use Rattle.rh_outproxy.specs.OutProxy.{new_proxy};
ghost use Rattle.law_node_streams.specs.Streams.{Stream};
ghost use Rattle.law_node_ends.specs.Passed.{AsksNoEcho, HeadsAre};
ghost use Rattle.law_node_begins.specs.ProxiesBegin.Pipes.{in_pipe};
ghost use Rattle.law_node_traces.specs.Traced.Ours.{rules};
ghost use Rattle.law_node_traces.specs.Traced.Recordings.{history_at};
ghost use Rattle.law_peers_routes.specs.Downwards.{proxy_reads};
ghost use Rattle.law_world_order.specs.FirstTexts.{IsPort};
ghost use Rattle.law_world_order.specs.Premises.{AtEachMoment, InNewWorlds};

use crate::live_intakes::no_bytes_that_come_ask_for_an_echo;
use law_node_begins::proxies_keep_their_pipes;

/// In each world of new roles whose numbers are in their ranges, where the port of the client's
/// server is one, at every moment that changes of lines and half steps reach, and whichever moves
/// lead to the roles: no head that comes to an in proxy, as a request for an IN channel, or to an
/// out proxy, as one for an OUT channel, asks for an echo (MS-RPCH 2.1.2).
pub fn no_head_that_comes_asks_for_an_echo<K>()
    ensures ins { InNewWorlds K (λ m w ours. IsPort ours.config.port
        → AtEachMoment m w (λ v by.
        (n : ℕ) (stream : Stream in_proxy.rules (in_state.first (ours.in_config n))
        in_proxy.rooms (in_pipe (ours.in_config n)) ((history_at m w v by.leads).ins n))
        → AllByRecursion (HeadsAre (AsksNoEcho true)) stream.leads.moves)) }
    ensures outs { InNewWorlds K (λ m w ours. IsPort ours.config.port
        → AtEachMoment m w (λ v by.
        (n : ℕ) (stream : Stream out_proxy.rules (new_proxy (ours.out_config n)) ROOMS
        (proxy_reads (ours.out_config n)) ((history_at m w v by.leads).outs n))
        → AllByRecursion (HeadsAre (AsksNoEcho false)) stream.leads.moves)) }
{
    no_bytes_that_come_ask_for_an_echo::<K>();
    proxies_keep_their_pipes();
}
