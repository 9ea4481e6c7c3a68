//! The legs that nodes keep. These functions do nothing: their contracts are the laws.

ghost use Rattle.std.specs.Prelude.{◌≡◌, ℕ, List, false, true};
ghost use Rattle.rh_http.specs.declared.config.ClientConfig.{ClientConfig};
ghost use Rattle.rh_line.specs.declared.leg.Leg.{Leg};
ghost use Rattle.rh_shell.specs.Shells.{begun};
ghost use Rattle.rh_inproxy.specs.declared.state.InProxyConfig.{InProxyConfig};
ghost use Rattle.rh_inproxy.specs.Machine as in_proxy;
ghost use Rattle.rh_outproxy.specs.declared.out_proxy.TheConstants.{ROOMS};
ghost use Rattle.rh_outproxy.specs.declared.state.OutProxyConfig.{OutProxyConfig};
ghost use Rattle.rh_outproxy.specs.Machine as out_proxy;
ghost use Rattle.rh_outproxy.specs.OutProxy.{new_proxy};
ghost use Rattle.rh_client.specs.Client as client;
ghost use Rattle.rh_server.specs.Servers as server;
ghost use Rattle.law_moves.specs.Moving.{EndEvent, Event, after_end_events, after_events};
ghost use Rattle.law_node_history.specs.Carried.{AreAccepted, AreAcceptedAtEnd, came_up, happened};
ghost use Rattle.law_world_ways.specs.OnPaths.Lost.{was_lost};
ghost use Rattle.law_world_ways.specs.ExactWays.Keeping.{KeepsIfOfUse, KnowsLeg};

use law_moves::{ends_move_by_their_rules, roles_move_by_their_rules};
use law_node_causes::{
    a_clients_leg_comes_up_once, a_servers_leg_comes_up_once, an_in_proxys_leg_comes_up_once,
    an_out_proxys_leg_comes_up_once,
};
use law_node_ends::{
    a_leg_that_a_client_left_stays_unused, a_leg_that_a_server_left_stays_unused,
    a_leg_that_an_in_proxy_left_stays_unused, a_leg_that_an_out_proxy_left_stays_unused,
};
use rh_client::ClientRole;
use rh_inproxy::InProxyRole;
use rh_outproxy::OutProxyRole;
use rh_server::ServerRole;

/// A node that goes on keeps each leg that came up there, until its role has no use for it any
/// more, or its work is done, if it was told neither that the leg ended nor that it broke: no other
/// leg takes the place of one that is of use, and none of these is marked.
pub fn a_leg_of_use_is_kept()
    ensures client { (config : ClientConfig) (events : List EndEvent) (leg : Leg)
        → AreAcceptedAtEnd client.rules client.acts (client.first_client config) events
        → came_up leg (happened events) ≡ true → was_lost leg (happened events) ≡ false
        → KeepsIfOfUse client.rules
        (after_end_events client.rules client.acts (client.first_client config) events) leg }
    ensures server { (window : ℕ) (events : List EndEvent) (leg : Leg)
        → AreAcceptedAtEnd server.rules server.acts (server.new_server window) events
        → came_up leg (happened events) ≡ true → was_lost leg (happened events) ≡ false
        → KeepsIfOfUse server.rules
        (after_end_events server.rules server.acts (server.new_server window) events) leg }
    ensures in_proxy { (config : InProxyConfig) (events : List Event) (leg : Leg)
        → AreAccepted in_proxy.rules (in_proxy.first_node config) events
        → came_up leg events ≡ true → was_lost leg events ≡ false
        → KeepsIfOfUse in_proxy.rules
        (after_events in_proxy.rules (in_proxy.first_node config) events) leg }
    ensures out_proxy { (config : OutProxyConfig) (events : List Event) (leg : Leg)
        → AreAccepted out_proxy.rules (begun (new_proxy config) ROOMS) events
        → came_up leg events ≡ true → was_lost leg events ≡ false
        → KeepsIfOfUse out_proxy.rules
        (after_events out_proxy.rules (begun (new_proxy config) ROOMS) events) leg }
{
    roles_move_by_their_rules::<ClientRole>();
    roles_move_by_their_rules::<ServerRole>();
    roles_move_by_their_rules::<InProxyRole>();
    roles_move_by_their_rules::<OutProxyRole>();
    ends_move_by_their_rules::<ClientRole>();
    ends_move_by_their_rules::<ServerRole>();
    a_clients_leg_comes_up_once();
    a_servers_leg_comes_up_once();
    an_in_proxys_leg_comes_up_once();
    an_out_proxys_leg_comes_up_once();
    a_leg_that_a_client_left_stays_unused();
    a_leg_that_a_server_left_stays_unused();
    a_leg_that_an_in_proxy_left_stays_unused();
    a_leg_that_an_out_proxy_left_stays_unused();
}

/// Whatever happens at a node: its role knows each leg that came up there as one that did, and the
/// node keeps nothing of a leg that did not.
pub fn a_leg_that_came_up_is_known()
    ensures client { (config : ClientConfig) (events : List EndEvent) (leg : Leg)
        → AreAcceptedAtEnd client.rules client.acts (client.first_client config) events
        → KnowsLeg client.rules
        (after_end_events client.rules client.acts (client.first_client config) events) leg
        (came_up leg (happened events)) }
    ensures server { (window : ℕ) (events : List EndEvent) (leg : Leg)
        → AreAcceptedAtEnd server.rules server.acts (server.new_server window) events
        → KnowsLeg server.rules
        (after_end_events server.rules server.acts (server.new_server window) events) leg
        (came_up leg (happened events)) }
    ensures in_proxy { (config : InProxyConfig) (events : List Event) (leg : Leg)
        → AreAccepted in_proxy.rules (in_proxy.first_node config) events
        → KnowsLeg in_proxy.rules
        (after_events in_proxy.rules (in_proxy.first_node config) events) leg
        (came_up leg events) }
    ensures out_proxy { (config : OutProxyConfig) (events : List Event) (leg : Leg)
        → AreAccepted out_proxy.rules (begun (new_proxy config) ROOMS) events
        → KnowsLeg out_proxy.rules
        (after_events out_proxy.rules (begun (new_proxy config) ROOMS) events) leg
        (came_up leg events) }
{
    roles_move_by_their_rules::<ClientRole>();
    roles_move_by_their_rules::<ServerRole>();
    roles_move_by_their_rules::<InProxyRole>();
    roles_move_by_their_rules::<OutProxyRole>();
    ends_move_by_their_rules::<ClientRole>();
    ends_move_by_their_rules::<ServerRole>();
    a_clients_leg_comes_up_once();
    a_servers_leg_comes_up_once();
    an_in_proxys_leg_comes_up_once();
    an_out_proxys_leg_comes_up_once();
}
