//! Where the node of an out proxy reads frames from its client. These functions only call the laws
//! that they stand on: their contracts are the laws.

ghost use Rattle.std.specs.Prelude.{◌≡◌, ℕ, List, Some, is_some, true};
ghost use Rattle.rh_line.specs.declared.leg.LegKind.TheVariants.{ClientOut};
ghost use Rattle.rh_shell.specs.declared.course.Course.TheVariants.{Going};
ghost use Rattle.rh_shell.specs.declared.stage.Stage.TheVariants as stage;
ghost use Rattle.rh_shell.specs.NearEnds.{NearEnd};
ghost use Rattle.rh_shell.specs.Shells.{begun, end_at};
ghost use Rattle.rh_inproxy.specs.State.{InProxy};
ghost use Rattle.rh_outproxy.specs.declared.out_proxy.TheConstants.{ROOMS};
ghost use Rattle.rh_outproxy.specs.declared.state.OutProxyConfig.{OutProxyConfig};
ghost use Rattle.rh_outproxy.specs.Machine as out_proxy;
ghost use Rattle.rh_outproxy.specs.OutProxy.{OutProxy, new_proxy};
ghost use Rattle.rh_client.specs.declared.state.ClientRole.{ClientRole};
ghost use Rattle.rh_server.specs.States.{Server};
ghost use Rattle.rh_nodes.specs.Opening.{Makers};
ghost use Rattle.rh_nodes.specs.Settling.{leg_at};
ghost use Rattle.rh_nodes.specs.World.{World};
ghost use Rattle.law_moves.specs.Moving.{Event, after_events};
ghost use Rattle.law_node_history.specs.Carried.{AreAccepted, ComesUpOnce};
ghost use Rattle.law_node_history.specs.Histories.{IsNew};
ghost use Rattle.law_node_streams.specs.Streams.{HearsInTurn};
ghost use Rattle.law_node_traces.specs.Traced.Cookies.{ByChanges};
ghost use Rattle.law_node_traces.specs.Traced.Ours.{AreOurs, deeds, rules};
ghost use Rattle.law_node_traces.specs.Traced.Recordings.{history_at};

use law_node_begins::proxies_keep_their_pipes;
use law_node_ends::a_leg_that_an_out_proxy_left_stays_unused;
use law_node_traces::{a_recording_of_roles_is_known, legs_of_roles_come_up_once};

/// Whatever happens to an out proxy that goes on: where it reads frames on the leg of its client,
/// its role took a request for a channel there.
pub fn an_out_proxy_reads_frames_behind_a_request()
    ensures { (config : OutProxyConfig) (events : List Event)
        → ComesUpOnce out_proxy.rules (begun (new_proxy config) ROOMS)
        → AreAccepted out_proxy.rules (begun (new_proxy config) ROOMS) events
        → HearsInTurn events → (end : NearEnd)
        → (let node = after_events out_proxy.rules (begun (new_proxy config) ROOMS) events in
        node.course ≡ Going → end_at node (leg_at ClientOut config.number) ≡ Some end
        → end.intake.stage ≡ stage.Frames → is_some node.role.request ≡ true) }
{
    proxies_keep_their_pipes();
    a_leg_that_an_out_proxy_left_stays_unused();
}

/// And so it is of each out proxy of a world that changes of lines and half steps lead to from new
/// roles.
pub fn frames_come_to_an_out_proxy_behind_a_request<K>()
    ensures { (m : Makers K InProxy OutProxy) (w : World K ClientRole Server InProxy OutProxy)
        → IsNew w → (ours : AreOurs m w.company w.cast)
        → (v : World K ClientRole Server InProxy OutProxy) (by : ByChanges rules m deeds w v)
        → (n : ℕ) (end : NearEnd)
        → (let node = after_events out_proxy.rules (begun (new_proxy (ours.out_config n)) ROOMS)
        ((history_at m w v by.leads).outs n) in
        node.course ≡ Going → end_at node (leg_at ClientOut n) ≡ Some end
        → end.intake.stage ≡ stage.Frames → is_some node.role.request ≡ true) }
{
    an_out_proxy_reads_frames_behind_a_request();
    a_recording_of_roles_is_known::<K>();
    legs_of_roles_come_up_once::<K>();
}
