//! A leg comes up at most once at each of the four roles. These functions do nothing: their
//! contracts are the laws.

ghost use Rattle.std.specs.Prelude.{◌≡◌, List, true, ℕ};
ghost use Rattle.rh_rts.specs.declared.command.Cookie.{Cookie};
ghost use Rattle.rh_http.specs.declared.config.ClientConfig.{ClientConfig};
ghost use Rattle.rh_line.specs.declared.leg.Leg.{Leg};
ghost use Rattle.rh_shell.specs.Shells.{begun, may_up};
ghost use Rattle.rh_inproxy.specs.declared.state.InProxyConfig.{InProxyConfig};
ghost use Rattle.rh_inproxy.specs.Machine as in_proxy;
ghost use Rattle.rh_outproxy.specs.declared.out_proxy.TheConstants as out_proxies;
ghost use Rattle.rh_outproxy.specs.declared.state.OutProxyConfig.{OutProxyConfig};
ghost use Rattle.rh_outproxy.specs.Machine as out_proxy;
ghost use Rattle.rh_outproxy.specs.OutProxy.{new_proxy};
ghost use Rattle.rh_client.specs.Client as client;
ghost use Rattle.rh_server.specs.Servers as server;
ghost use Rattle.law_moves.specs.Moving.{ComesUp, EndEvent, Event, after_event, after_events};
ghost use Rattle.law_moves.specs.Moving.{after_end_events};
ghost use Rattle.law_node_causes.specs.Numbers.{AreNumbered, ClientIsNumbered};
ghost use Rattle.law_node_causes.specs.Once.{AreNewLegs, AreNewLegsAtEnd, ComesUpOnce};
ghost use Rattle.law_node_causes.specs.Once.{KeepsUp, WasUp};

use crate::once::{UpOnce, a_leg_comes_up_once, an_ends_leg_comes_up_once};
use rh_client::ClientRole;
use rh_inproxy::InProxyRole;
use rh_outproxy::OutProxyRole;
use rh_server::ServerRole;

impl UpOnce for ClientRole {
    ghost use Rattle.law_node_causes.specs.Numbers.{ClientIsNumbered};

    ghost holds = { ClientIsNumbered };
}

impl UpOnce for InProxyRole {
    ghost use Rattle.law_node_causes.specs.Numbers.{AreNumbered};

    ghost holds = { AreNumbered };
}

impl UpOnce for OutProxyRole {
    ghost holds = { λ s. Unit {0} };
}

impl UpOnce for ServerRole {
    ghost holds = { λ s. Unit {0} };
}

/// A leg comes up at most once at a client: its ci legs and its co legs have the numbers of its IN
/// and OUT channels, each of which has the number behind the one that it replaces, and none of
/// which is above the last number.
pub fn a_clients_leg_comes_up_once()
    ensures moves { ComesUpOnce client.rules ClientIsNumbered }
    ensures calls { KeepsUp client.rules client.acts ClientIsNumbered }
    ensures comes { (config : ClientConfig) (events : List EndEvent) (leg : Leg) (cookie : Cookie)
        → (let node = after_end_events client.rules client.acts (client.first_client config)
        events in
        may_up client.rules node leg ≡ true
        → WasUp client.rules (after_event client.rules node (ComesUp leg cookie)) leg) }
    ensures once { (config : ClientConfig) (events later : List EndEvent) (leg : Leg)
        → (let node = after_end_events client.rules client.acts (client.first_client config)
        events in
        client.rules.was_up node.role leg ≡ true
        → WasUp client.rules (after_end_events client.rules client.acts node later) leg) }
    ensures new { (config : ClientConfig) (events : List EndEvent)
        → AreNewLegsAtEnd client.rules client.acts (client.first_client config) events }
    ensures numbers { (config : ClientConfig) (events : List EndEvent) → ClientIsNumbered
        (after_end_events client.rules client.acts (client.first_client config) events).role }
{
    an_ends_leg_comes_up_once::<ClientRole>();
}

/// A leg comes up at most once at an in proxy: its is leg, and its ci legs, each of which has the
/// number behind the one before.
pub fn an_in_proxys_leg_comes_up_once()
    ensures moves { ComesUpOnce in_proxy.rules AreNumbered }
    ensures comes { (config : InProxyConfig) (events : List Event) (leg : Leg) (cookie : Cookie)
        → (let node = after_events in_proxy.rules (in_proxy.first_node config) events in
        may_up in_proxy.rules node leg ≡ true
        → WasUp in_proxy.rules (after_event in_proxy.rules node (ComesUp leg cookie)) leg) }
    ensures once { (config : InProxyConfig) (events later : List Event) (leg : Leg)
        → (let node = after_events in_proxy.rules (in_proxy.first_node config) events in
        in_proxy.rules.was_up node.role leg ≡ true
        → WasUp in_proxy.rules (after_events in_proxy.rules node later) leg) }
    ensures new { (config : InProxyConfig) (events : List Event)
        → AreNewLegs in_proxy.rules (in_proxy.first_node config) events }
{
    a_leg_comes_up_once::<InProxyRole>();
}

/// A leg comes up at most once at an out proxy: its co leg, and its os leg.
pub fn an_out_proxys_leg_comes_up_once()
    ensures moves { ComesUpOnce out_proxy.rules (λ s. Unit {0}) }
    ensures comes { (config : OutProxyConfig) (events : List Event) (leg : Leg) (cookie : Cookie)
        → (let first = begun (new_proxy config) out_proxies.ROOMS in
        let node = after_events out_proxy.rules first events in
        may_up out_proxy.rules node leg ≡ true
        → WasUp out_proxy.rules (after_event out_proxy.rules node (ComesUp leg cookie)) leg) }
    ensures once { (config : OutProxyConfig) (events later : List Event) (leg : Leg)
        → (let first = begun (new_proxy config) out_proxies.ROOMS in
        let node = after_events out_proxy.rules first events in
        out_proxy.rules.was_up node.role leg ≡ true
        → WasUp out_proxy.rules (after_events out_proxy.rules node later) leg) }
    ensures new { (config : OutProxyConfig) (events : List Event)
        → AreNewLegs out_proxy.rules (begun (new_proxy config) out_proxies.ROOMS) events }
{
    a_leg_comes_up_once::<OutProxyRole>();
}

/// A leg comes up at most once at a server: its is legs and its os legs have the numbers behind
/// those that were up or were given to a channel.
pub fn a_servers_leg_comes_up_once()
    ensures moves { ComesUpOnce server.rules (λ s. Unit {0}) }
    ensures calls { KeepsUp server.rules server.acts (λ s. Unit {0}) }
    ensures comes { (window : ℕ) (events : List EndEvent) (leg : Leg) (cookie : Cookie)
        → (let node = after_end_events server.rules server.acts (server.new_server window) events in
        may_up server.rules node leg ≡ true
        → WasUp server.rules (after_event server.rules node (ComesUp leg cookie)) leg) }
    ensures once { (window : ℕ) (events later : List EndEvent) (leg : Leg)
        → (let node = after_end_events server.rules server.acts (server.new_server window) events in
        server.rules.was_up node.role leg ≡ true
        → WasUp server.rules (after_end_events server.rules server.acts node later) leg) }
    ensures new { (window : ℕ) (events : List EndEvent)
        → AreNewLegsAtEnd server.rules server.acts (server.new_server window) events }
{
    an_ends_leg_comes_up_once::<ServerRole>();
}
