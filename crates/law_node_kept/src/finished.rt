//! Legs that a node has finished. This function does nothing: its contract is the law.

ghost use Rattle.std.specs.Prelude.{◌≡◌, ℕ, List, true};
ghost use Rattle.rh_http.specs.declared.config.ClientConfig.{ClientConfig};
ghost use Rattle.rh_line.specs.declared.leg.Leg.{Leg};
ghost use Rattle.rh_shell.specs.declared.course.Course.TheVariants.{Going};
ghost use Rattle.rh_shell.specs.Shells.{begun, finished};
ghost use Rattle.rh_inproxy.specs.declared.state.InProxyConfig.{InProxyConfig};
ghost use Rattle.rh_inproxy.specs.Machine as in_proxy;
ghost use Rattle.rh_outproxy.specs.declared.out_proxy.TheConstants.{ROOMS};
ghost use Rattle.rh_outproxy.specs.declared.state.OutProxyConfig.{OutProxyConfig};
ghost use Rattle.rh_outproxy.specs.Machine as out_proxy;
ghost use Rattle.rh_outproxy.specs.OutProxy.{new_proxy};
ghost use Rattle.rh_client.specs.Client as client;
ghost use Rattle.rh_server.specs.Servers as server;
ghost use Rattle.law_moves.specs.Moving.{EndEvent, Event, after_end_events, after_events};
ghost use Rattle.law_node_marks.specs.Losing.{DrewAll};
ghost use Rattle.law_node_kept.specs.Keeping.{KeptLeg, KeptLegAtEnd};

use law_moves::{ends_move_by_their_rules, roles_move_by_their_rules};
use rh_client::ClientRole;
use rh_inproxy::InProxyRole;
use rh_outproxy::OutProxyRole;
use rh_server::ServerRole;

/// Whatever happens at a node, but that it is told that a leg is lost: where it goes on and has
/// finished that leg, it drew all that it put there.
pub fn what_a_node_has_finished_is_drawn()
    ensures client { (config : ClientConfig) (events : List EndEvent) (leg : Leg)
        → KeptLegAtEnd leg events
        → (let node = after_end_events client.rules client.acts (client.first_client config) events
        in node.course ≡ Going → finished client.rules node leg ≡ true → DrewAll node leg) }
    ensures server { (window : ℕ) (events : List EndEvent) (leg : Leg)
        → KeptLegAtEnd leg events
        → (let node = after_end_events server.rules server.acts (server.new_server window) events
        in node.course ≡ Going → finished server.rules node leg ≡ true → DrewAll node leg) }
    ensures in_proxy { (config : InProxyConfig) (events : List Event) (leg : Leg)
        → KeptLeg leg events
        → (let node = after_events in_proxy.rules (in_proxy.first_node config) events in
        node.course ≡ Going → finished in_proxy.rules node leg ≡ true → DrewAll node leg) }
    ensures out_proxy { (config : OutProxyConfig) (events : List Event) (leg : Leg)
        → KeptLeg leg events
        → (let node = after_events out_proxy.rules (begun (new_proxy config) ROOMS) events in
        node.course ≡ Going → finished out_proxy.rules node leg ≡ true → DrewAll node leg) }
{
    ends_move_by_their_rules::<ClientRole>();
    ends_move_by_their_rules::<ServerRole>();
    roles_move_by_their_rules::<InProxyRole>();
    roles_move_by_their_rules::<OutProxyRole>();
}
