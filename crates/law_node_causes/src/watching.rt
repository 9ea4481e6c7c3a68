//! How long each role lets its legs be silent. These functions do nothing: their contracts are the
//! laws.

ghost use Rattle.std.specs.Prelude.{◌≡◌, List, None, ℕ};
ghost use Rattle.rh_http.specs.declared.config.ClientConfig.{ClientConfig};
ghost use Rattle.rh_line.specs.declared.cause.Cause.TheVariants as cause;
ghost use Rattle.rh_line.specs.declared.leg.Leg.{Leg};
ghost use Rattle.rh_shell.specs.Shells.{Shell};
ghost use Rattle.rh_inproxy.specs.declared.state.InProxyConfig.{InProxyConfig};
ghost use Rattle.rh_inproxy.specs.State.{channel_of};
ghost use Rattle.rh_inproxy.specs.Time.{a5_came};
ghost use Rattle.rh_inproxy.specs.Machine as in_proxy;
ghost use Rattle.rh_outproxy.specs.OutProxy.{OutProxy};
ghost use Rattle.rh_outproxy.specs.Machine as out_proxy;
ghost use Rattle.rh_client.specs.Client as client;
ghost use Rattle.rh_server.specs.States.{Server};
ghost use Rattle.rh_server.specs.Servers as server;
ghost use Rattle.rh_company.specs.declared.event.Event as told;
ghost use Rattle.law_moves.specs.Moving.{EndEvent, Event, after_end_events, after_events};
ghost use Rattle.law_node_causes.specs.Closings.{ClosesWith};
ghost use Rattle.law_node_causes.specs.Watching.{ClientFellSilent, InProxyFellSilent};
ghost use Rattle.law_node_causes.specs.Watching.{Watches, in_proxy_limit};

use crate::once_each::{a_clients_leg_comes_up_once, an_in_proxys_leg_comes_up_once};
use law_moves::{ends_move_by_their_rules, roles_move_by_their_rules};
use rh_client::ClientRole;
use rh_inproxy::InProxyRole;

/// Whatever happens at an in proxy, it watches its ci legs until IN_R1/A5 came there, each for the
/// timeout in milliseconds that it was made with. An out proxy and a server watch no leg.
pub fn a_proxy_watches_its_client()
    ensures in_proxy { (config : InProxyConfig) (events : List Event) (leg : Leg)
        → (let role = (after_events in_proxy.rules (in_proxy.first_node config) events).role in
        in_proxy.rules.silence role leg
        ≡ in_proxy_limit config leg (a5_came role (channel_of role leg.number))) }
    ensures out_proxy { (role : OutProxy) (leg : Leg) → out_proxy.rules.silence role leg ≡ None }
    ensures server { (role : Server) (leg : Leg) → server.rules.silence role leg ≡ None }
{
    roles_move_by_their_rules::<InProxyRole>();
}

/// Whatever happens at a client, it watches only co legs, each for the timeout in milliseconds that
/// was told for it by a packet that came: by CONN/A3 for co 1, and by OUT_R1/A6 for a later one.
pub fn a_client_watches_by_what_was_told()
    ensures { (config : ClientConfig) (events : List EndEvent)
        → Watches config
        (after_end_events client.rules client.acts (client.first_client config) events) }
{
    ends_move_by_their_rules::<ClientRole>();
}

/// A node closes with `Silent` only at the moment that this names, and since the last one at which
/// bytes were heard on the leg or it came up: an in proxy only of a ci leg, before IN_R1/A5 came
/// there, once the timeout that it was made with has passed; a client only of a co leg, once the
/// timeout that was told for it has passed; an out proxy and a server never.
pub fn a_node_falls_silent_since_it_was_heard()
    ensures client { (config : ClientConfig) (events : List EndEvent) (event : told.Event)
        (leg : Leg) (since now : ℕ)
        → ClosesWith client.rules
        (after_end_events client.rules client.acts (client.first_client config) events) event
        (cause.Silent leg since now)
        → ClientFellSilent config events event leg since now }
    ensures in_proxy { (config : InProxyConfig) (events : List Event) (event : told.Event)
        (leg : Leg) (since now : ℕ)
        → ClosesWith in_proxy.rules
        (after_events in_proxy.rules (in_proxy.first_node config) events) event
        (cause.Silent leg since now)
        → InProxyFellSilent config events event leg since now }
    ensures out_proxy { (node : Shell OutProxy) (event : told.Event) (leg : Leg) (since now : ℕ)
        → ClosesWith out_proxy.rules node event (cause.Silent leg since now) → ⊥ }
    ensures server { (node : Shell Server) (event : told.Event) (leg : Leg) (since now : ℕ)
        → ClosesWith server.rules node event (cause.Silent leg since now) → ⊥ }
{
    ends_move_by_their_rules::<ClientRole>();
    roles_move_by_their_rules::<InProxyRole>();
    a_clients_leg_comes_up_once();
    an_in_proxys_leg_comes_up_once();
}
