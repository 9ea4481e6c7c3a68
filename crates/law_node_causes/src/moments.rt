//! Since when a leg was not heard. These functions do nothing: their contracts are the laws.

ghost use Rattle.std.specs.Prelude.{◌≡◌, ◌≤◌, List, None, Some, false, ℕ};
ghost use Rattle.rh_http.specs.declared.config.ClientConfig.{ClientConfig};
ghost use Rattle.rh_line.specs.declared.leg.Leg.{Leg};
ghost use Rattle.rh_shell.specs.declared.rooms.Rooms.{Rooms};
ghost use Rattle.rh_shell.specs.NearEnds.{NearEnd};
ghost use Rattle.rh_shell.specs.Shells.{Shell, begun, end_at};
ghost use Rattle.rh_inproxy.specs.declared.state.InProxyConfig.{InProxyConfig};
ghost use Rattle.rh_inproxy.specs.Machine as in_proxy;
ghost use Rattle.rh_outproxy.specs.declared.out_proxy.TheConstants as out_proxies;
ghost use Rattle.rh_outproxy.specs.declared.state.OutProxyConfig.{OutProxyConfig};
ghost use Rattle.rh_outproxy.specs.OutProxy.{new_proxy};
ghost use Rattle.rh_outproxy.specs.Machine as out_proxy;
ghost use Rattle.rh_client.specs.Client as client;
ghost use Rattle.rh_server.specs.Servers as server;
ghost use Rattle.law_moves.specs.Moving.{EndEvent, Event, Hears};
ghost use Rattle.law_moves.specs.Moving.{after_event, after_events, after_end_events};
ghost use Rattle.law_node_causes.specs.Moments.{hears_bytes, last_touched, last_touched_at_end};
ghost use Rattle.law_node_causes.specs.Moments.{moment_after};
ghost use Rattle.law_node_causes.specs.Once.{AreNewLegs, AreNewLegsAtEnd};

use crate::once_each::{
    a_clients_leg_comes_up_once, a_servers_leg_comes_up_once, an_in_proxys_leg_comes_up_once,
    an_out_proxys_leg_comes_up_once,
};
use rh_shell::{EndRole, Role};

/// The moment since which a leg is silent is the last one at which it came up or at least one byte
/// came there that was heard, whatever else happened at the node from its start. It is a law of
/// runs in which a leg that comes up is none of those that the node keeps; so it is in every run of
/// a client, a proxy and a server (`each_roles_legs_are_silent_since_they_were_heard`).
///
/// A moment is that of the last tick at which the node worked and that was not below the one
/// before, in milliseconds; none is below an earlier one.
///
/// A piece that has no byte, and one that comes on a leg that is not up, was lost, is of no use any
/// more, or belongs to a node that closed, changes nothing at all.
pub fn a_leg_is_silent_since_it_was_heard<R: Role>()
    ensures since { (role : R) (rooms : Rooms) (events : List Event) (leg : Leg) (end : NearEnd)
        → AreNewLegs R.rules (begun role rooms) events
        → end_at (after_events R.rules (begun role rooms) events) leg ≡ Some end
        → last_touched R.rules leg (begun role rooms) events None ≡ Some end.since }
    ensures unheard { (node : Shell R) (leg : Leg) (piece : List ℕ)
        → hears_bytes R.rules node leg piece ≡ false
        → after_event R.rules node (Hears leg piece) ≡ node }
    ensures moment { (node : Shell R) (event : Event)
        → (after_event R.rules node event).now ≡ moment_after R.rules node event }
    ensures later { (node : Shell R) (event : Event)
        → node.now ≤ (after_event R.rules node event).now }
{}

/// The same at an end, whose own calls touch no leg.
pub fn an_ends_leg_is_silent_since_it_was_heard<R: EndRole>()
    ensures { (role : R) (rooms : Rooms) (events : List EndEvent) (leg : Leg) (end : NearEnd)
        → AreNewLegsAtEnd R.rules R.acts (begun role rooms) events
        → end_at (after_end_events R.rules R.acts (begun role rooms) events) leg ≡ Some end
        → last_touched_at_end R.rules R.acts leg (begun role rooms) events None
        ≡ Some end.since }
{}

/// So it is at each of the four roles, whatever happened there from its start: where a node keeps
/// a leg, the moment since which that is silent is the last one at which the leg came up or bytes
/// were heard there.
pub fn each_roles_legs_are_silent_since_they_were_heard()
    ensures client { (config : ClientConfig) (events : List EndEvent) (leg : Leg) (end : NearEnd)
        → end_at (after_end_events client.rules client.acts (client.first_client config) events)
        leg ≡ Some end
        → last_touched_at_end client.rules client.acts leg (client.first_client config) events None
        ≡ Some end.since }
    ensures in_proxy { (config : InProxyConfig) (events : List Event) (leg : Leg) (end : NearEnd)
        → end_at (after_events in_proxy.rules (in_proxy.first_node config) events) leg ≡ Some end
        → last_touched in_proxy.rules leg (in_proxy.first_node config) events None
        ≡ Some end.since }
    ensures out_proxy { (config : OutProxyConfig) (events : List Event) (leg : Leg) (end : NearEnd)
        → (let first = begun (new_proxy config) out_proxies.ROOMS in
        end_at (after_events out_proxy.rules first events) leg ≡ Some end
        → last_touched out_proxy.rules leg first events None ≡ Some end.since) }
    ensures server { (window : ℕ) (events : List EndEvent) (leg : Leg) (end : NearEnd)
        → end_at (after_end_events server.rules server.acts (server.new_server window) events) leg
        ≡ Some end
        → last_touched_at_end server.rules server.acts leg (server.new_server window) events None
        ≡ Some end.since }
{
    a_clients_leg_comes_up_once();
    an_in_proxys_leg_comes_up_once();
    an_out_proxys_leg_comes_up_once();
    a_servers_leg_comes_up_once();
}
