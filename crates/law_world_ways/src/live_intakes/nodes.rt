//! The legs that a node keeps. This function does nothing: its contract is the law.

ghost use Rattle.std.specs.Prelude.{ℕ, List, false, true};
ghost use Rattle.rh_http.specs.declared.config.ClientConfig.{ClientConfig};
ghost use Rattle.rh_line.specs.declared.leg.Leg.{Leg};
ghost use Rattle.rh_shell.specs.Shells.{begun};
ghost use Rattle.rh_inproxy.specs.declared.state.InProxyConfig.{InProxyConfig};
ghost use Rattle.rh_inproxy.specs.Machine as in_proxy;
ghost use Rattle.rh_outproxy.specs.declared.out_proxy.TheConstants.{ROOMS};
ghost use Rattle.rh_outproxy.specs.declared.state.OutProxyConfig.{OutProxyConfig};
ghost use Rattle.rh_outproxy.specs.Machine as out_proxy;
ghost use Rattle.rh_outproxy.specs.OutProxy.{new_proxy};
ghost use Rattle.rh_client.specs.Client as client;
ghost use Rattle.rh_server.specs.Servers as server;
ghost use Rattle.law_moves.specs.Moving.{EndEvent, Event, after_end_events, after_events};
ghost use Rattle.law_node_history.specs.Carried.{AreAccepted, AreAcceptedAtEnd, happened, heard_on};
ghost use Rattle.law_node_streams.specs.Streams.{HearsInTurn};
ghost use Rattle.law_node_begins.specs.ProxiesBegin.Pipes.{in_pipe, out_pipe};
ghost use Rattle.law_world_ways.specs.LiveIntakes.{BeginsNoEcho, ReadsLeg};

use law_node_begins::{an_end_never_refuses, proxies_keep_their_pipes};
use law_node_causes::{
    a_clients_leg_comes_up_once, a_servers_leg_comes_up_once, an_in_proxys_leg_comes_up_once,
    an_out_proxys_leg_comes_up_once,
};
use law_node_ends::{
    a_leg_that_a_client_left_stays_unused, a_leg_that_a_server_left_stays_unused,
    a_leg_that_an_in_proxy_left_stays_unused, a_leg_that_an_out_proxy_left_stays_unused,
};
use law_node_streams::{a_nodes_stream, an_ends_stream};
use rh_client::ClientRole;
use rh_inproxy::InProxyRole;
use rh_outproxy::OutProxyRole;
use rh_server::ServerRole;

/// Whatever happens at a node, if its legs came up where they might and pieces came on legs that
/// were up: while it goes on, what comes on a leg of which it keeps an end is read. A proxy passes
/// over what stands behind a head that asks for an echo; none comes on its leg to the server.
pub fn what_a_node_keeps_is_read()
    ensures client { (config : ClientConfig) (events : List EndEvent) (leg : Leg)
        → AreAcceptedAtEnd client.rules client.acts (client.first_client config) events
        → HearsInTurn (happened events)
        → ReadsLeg (after_end_events client.rules client.acts (client.first_client config) events)
        leg }
    ensures server { (window : ℕ) (events : List EndEvent) (leg : Leg)
        → AreAcceptedAtEnd server.rules server.acts (server.new_server window) events
        → HearsInTurn (happened events)
        → ReadsLeg (after_end_events server.rules server.acts (server.new_server window) events)
        leg }
    ensures in_proxy { (config : InProxyConfig) (events : List Event) (leg : Leg)
        → AreAccepted in_proxy.rules (in_proxy.first_node config) events → HearsInTurn events
        → BeginsNoEcho true (in_pipe config leg) (heard_on leg events)
        → ReadsLeg (after_events in_proxy.rules (in_proxy.first_node config) events) leg }
    ensures out_proxy { (config : OutProxyConfig) (events : List Event) (leg : Leg)
        → AreAccepted out_proxy.rules (begun (new_proxy config) ROOMS) events
        → HearsInTurn events → BeginsNoEcho false (out_pipe config leg) (heard_on leg events)
        → ReadsLeg (after_events out_proxy.rules (begun (new_proxy config) ROOMS) events) leg }
{
    an_ends_stream::<ClientRole>();
    an_ends_stream::<ServerRole>();
    a_nodes_stream::<InProxyRole>();
    a_nodes_stream::<OutProxyRole>();
    an_end_never_refuses();
    proxies_keep_their_pipes();
    a_clients_leg_comes_up_once();
    a_servers_leg_comes_up_once();
    an_in_proxys_leg_comes_up_once();
    an_out_proxys_leg_comes_up_once();
    a_leg_that_a_client_left_stays_unused();
    a_leg_that_a_server_left_stays_unused();
    a_leg_that_an_in_proxy_left_stays_unused();
    a_leg_that_an_out_proxy_left_stays_unused();
}
