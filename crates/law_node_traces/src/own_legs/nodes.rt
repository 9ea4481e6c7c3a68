//! The legs that each node has, whatever happened there. These functions do nothing: their
//! contracts are the laws.

ghost use Rattle.std.specs.Prelude.{◌≡◌, List, ℕ};
ghost use Rattle.rh_http.specs.declared.config.ClientConfig.{ClientConfig};
ghost use Rattle.rh_line.specs.declared.cause.Cause.{Cause};
ghost use Rattle.rh_line.specs.declared.leg.Leg.{Leg};
ghost use Rattle.rh_line.specs.declared.leg.LegKind.TheVariants.{ClientOut};
ghost use Rattle.rh_shell.specs.Shells.{begun};
ghost use Rattle.rh_inproxy.specs.declared.state.InProxyConfig.{InProxyConfig};
ghost use Rattle.rh_inproxy.specs.Machine as in_proxy;
ghost use Rattle.rh_outproxy.specs.declared.out_proxy.TheConstants as out_proxies;
ghost use Rattle.rh_outproxy.specs.declared.state.OutProxyConfig.{OutProxyConfig};
ghost use Rattle.rh_outproxy.specs.OutProxy.{new_proxy};
ghost use Rattle.rh_outproxy.specs.Machine as out_proxy;
ghost use Rattle.rh_client.specs.Client as client;
ghost use Rattle.rh_server.specs.Servers as server;
ghost use Rattle.rh_company.specs.declared.event.Event as told;
ghost use Rattle.law_moves.specs.Moving.{EndEvent, Event, after_end_events, after_events};
ghost use Rattle.law_node_causes.specs.Closings.{ClosesWith};
ghost use Rattle.law_node_traces.specs.OwnLegs.{IsAmissOn, IsOfClient, IsOfInProxy, IsOfOutProxy};
ghost use Rattle.law_node_traces.specs.OwnLegs.{IsOfServer, KeepsEnds, KeepsLegs};

use law_node_causes::{
    a_node_closes_once, causes_come_from_their_events, events_close_with_their_causes,
};
use rh_client::ClientRole;
use rh_inproxy::InProxyRole;
use rh_outproxy::OutProxyRole;
use rh_server::ServerRole;

/// Whatever happened at a node from its start, the legs of which it keeps ends are of its role. A
/// client's are its OUT and its IN legs, and the end of an IN leg still waits for a head, so that
/// no packet and no PDU is taken there. An in proxy's are IN legs of the client, and IN legs to the
/// server; an out proxy's the same of OUT legs; and the server's are those of the proxies (MS-RPCH
/// 3.2).
pub fn each_node_keeps_its_own_legs()
    ensures client { (config : ClientConfig) (events : List EndEvent)
        → KeepsEnds IsOfClient
        (after_end_events client.rules client.acts (client.first_client config) events) }
    ensures in_proxy { (config : InProxyConfig) (events : List Event)
        → KeepsLegs IsOfInProxy
        (after_events in_proxy.rules (in_proxy.first_node config) events) }
    ensures out_proxy { (config : OutProxyConfig) (events : List Event)
        → KeepsLegs IsOfOutProxy
        (after_events out_proxy.rules (begun (new_proxy config) out_proxies.ROOMS) events) }
    ensures server { (window : ℕ) (events : List EndEvent)
        → KeepsLegs IsOfServer
        (after_end_events server.rules server.acts (server.new_server window) events) }
{}

/// So whatever happened there, an event closes a node with `Unexpected` or `CookieMismatch` of such
/// a leg alone, and a client of an OUT leg alone (MS-RPCH 3.2; profile).
pub fn each_node_refuses_on_its_own_legs()
    ensures client { (config : ClientConfig) (events : List EndEvent) (event : told.Event)
        (leg : Leg) (why : Cause) → IsAmissOn leg why
        → ClosesWith client.rules
        (after_end_events client.rules client.acts (client.first_client config) events) event why
        → leg.kind ≡ ClientOut }
    ensures in_proxy { (config : InProxyConfig) (events : List Event) (event : told.Event)
        (leg : Leg) (why : Cause) → IsAmissOn leg why
        → ClosesWith in_proxy.rules
        (after_events in_proxy.rules (in_proxy.first_node config) events) event why
        → IsOfInProxy leg }
    ensures out_proxy { (config : OutProxyConfig) (events : List Event) (event : told.Event)
        (leg : Leg) (why : Cause) → IsAmissOn leg why
        → ClosesWith out_proxy.rules
        (after_events out_proxy.rules (begun (new_proxy config) out_proxies.ROOMS) events) event why
        → IsOfOutProxy leg }
    ensures server { (window : ℕ) (events : List EndEvent) (event : told.Event)
        (leg : Leg) (why : Cause) → IsAmissOn leg why
        → ClosesWith server.rules
        (after_end_events server.rules server.acts (server.new_server window) events) event why
        → IsOfServer leg }
{
    each_node_keeps_its_own_legs();
    causes_come_from_their_events::<ClientRole>();
    causes_come_from_their_events::<ServerRole>();
    causes_come_from_their_events::<InProxyRole>();
    causes_come_from_their_events::<OutProxyRole>();
    events_close_with_their_causes::<ClientRole>();
    events_close_with_their_causes::<ServerRole>();
    events_close_with_their_causes::<InProxyRole>();
    events_close_with_their_causes::<OutProxyRole>();
    a_node_closes_once::<ClientRole>();
}
