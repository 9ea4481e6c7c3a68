//! Which heads a node that closed draws. These functions do nothing: their contracts are the laws.

ghost use Rattle.std.specs.Prelude.{List, ℕ};
ghost use Rattle.rh_line.specs.declared.cause.Cause.TheVariants as cause;
ghost use Rattle.rh_line.specs.declared.leg.Leg.{Leg};
ghost use Rattle.rh_line.specs.declared.leg.LegKind.TheVariants as legs;
ghost use Rattle.rh_shell.specs.declared.rooms.Rooms.{Rooms};
ghost use Rattle.rh_shell.specs.Shells.{Shell, begun};
ghost use Rattle.rh_inproxy.specs.declared.state.InProxyConfig.{InProxyConfig};
ghost use Rattle.rh_inproxy.specs.State.{InProxy};
ghost use Rattle.rh_inproxy.specs.Machine as in_proxy;
ghost use Rattle.rh_outproxy.specs.declared.out_proxy.TheConstants as out_proxies;
ghost use Rattle.rh_outproxy.specs.declared.state.OutProxyConfig.{OutProxyConfig};
ghost use Rattle.rh_outproxy.specs.OutProxy.{OutProxy, new_proxy};
ghost use Rattle.rh_outproxy.specs.Machine as out_proxy;
ghost use Rattle.rh_client.specs.declared.state.ClientRole.{ClientRole};
ghost use Rattle.rh_client.specs.Client as client;
ghost use Rattle.rh_server.specs.Servers as server;
ghost use Rattle.rh_company.specs.declared.event.Event as told;
ghost use Rattle.law_moves.specs.Moving.{EndEvent, Event, after_end_events, after_events};
ghost use Rattle.law_node_causes.specs.Closings.{ClosesWith, IsResponse};
ghost use Rattle.law_node_causes.specs.Refusals.{MayRefuse, MayRefuseOn, RefusesNoStatus};

use law_moves::roles_move_by_their_rules;
use rh_inproxy::InProxyRole;
use rh_outproxy::OutProxyRole;
use rh_shell::Role;

/// A node that closed draws the rest of a head only for one of two reasons, whatever happened at
/// it from its start: a request on that leg broke a rule, and the head says so; or a leg that its
/// role wanted could not be connected, and a head of status 503 says so on the leg that the role
/// names.
pub fn a_node_refuses_for_a_reason<R: Role>()
    ensures { (role : R) (rooms : Rooms) (events : List Event)
        → (let node = after_events R.rules (begun role rooms) events in
        MayRefuse R.rules node.role node.course) }
{}

/// Whatever happens at a proxy, it draws the rest of a head only where it closed for one of two
/// reasons: a request on that leg, which is a client's, broke a rule, which the head says; or its
/// leg to the server could not be connected, and a head of status 503 says so on the client's leg
/// of the same number.
pub fn a_proxy_refuses_for_a_reason()
    ensures in_proxy { (config : InProxyConfig) (events : List Event)
        → MayRefuseOn (record { kind = legs.ClientIn; number = config.number })
        (record { kind = legs.InServer; number = config.number })
        (after_events in_proxy.rules (in_proxy.first_node config) events).course }
    ensures out_proxy { (config : OutProxyConfig) (events : List Event)
        → MayRefuseOn (record { kind = legs.ClientOut; number = config.number })
        (record { kind = legs.OutServer; number = config.number })
        (after_events out_proxy.rules (begun (new_proxy config) out_proxies.ROOMS) events).course }
{
    roles_move_by_their_rules::<InProxyRole>();
    roles_move_by_their_rules::<OutProxyRole>();
}

/// Only a client closes with `HttpRefused`, and only for a response on that leg: of a status that
/// isn't 200 on the leg of an OUT channel, and of any on that of an IN channel. A proxy refuses no
/// head for its status, whatever its state is; and to a server no head comes, whatever happened
/// there.
pub fn only_a_client_closes_with_http_refused()
    ensures client { (node : Shell ClientRole) (event : told.Event) (leg : Leg) (status : ℕ)
        → ClosesWith client.rules node event (cause.HttpRefused leg status)
        → IsResponse node event leg status }
    ensures in_proxies { RefusesNoStatus in_proxy.rules }
    ensures out_proxies { RefusesNoStatus out_proxy.rules }
    ensures in_proxy { (node : Shell InProxy) (event : told.Event) (leg : Leg) (status : ℕ)
        → ClosesWith in_proxy.rules node event (cause.HttpRefused leg status) → ⊥ }
    ensures out_proxy { (node : Shell OutProxy) (event : told.Event) (leg : Leg) (status : ℕ)
        → ClosesWith out_proxy.rules node event (cause.HttpRefused leg status) → ⊥ }
    ensures server { (window : ℕ) (events : List EndEvent) (event : told.Event) (leg : Leg)
        (status : ℕ)
        → ClosesWith server.rules
        (after_end_events server.rules server.acts (server.new_server window) events) event
        (cause.HttpRefused leg status) → ⊥ }
{}
