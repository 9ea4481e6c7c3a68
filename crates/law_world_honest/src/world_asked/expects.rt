//! What the out proxies of a world of roles expect of their client. This function only calls the
//! laws that it stands on: its contract is the law.

ghost use Rattle.std.specs.Prelude.{◌≡◌, ℕ, Some};
ghost use Rattle.rh_line.specs.declared.leg.LegKind.TheVariants.{ClientOut};
ghost use Rattle.rh_shell.specs.declared.course.Course.TheVariants.{Going};
ghost use Rattle.rh_shell.specs.declared.stage.Stage.TheVariants as stage;
ghost use Rattle.rh_shell.specs.NearEnds.{NearEnd};
ghost use Rattle.rh_shell.specs.Shells.{begun, end_at};
ghost use Rattle.rh_inproxy.specs.State.{InProxy};
ghost use Rattle.rh_outproxy.specs.declared.out_proxy.TheConstants.{ROOMS};
ghost use Rattle.rh_outproxy.specs.Machine as out_proxy;
ghost use Rattle.rh_outproxy.specs.OutProxy.{OutProxy, new_proxy};
ghost use Rattle.rh_client.specs.declared.state.ClientRole.{ClientRole};
ghost use Rattle.rh_server.specs.States.{Server};
ghost use Rattle.rh_nodes.specs.Opening.{Makers};
ghost use Rattle.rh_nodes.specs.Settling.{leg_at};
ghost use Rattle.rh_nodes.specs.World.{World};
ghost use Rattle.law_moves.specs.Moving.{after_events};
ghost use Rattle.law_moves.specs.Wires.{of_leg};
ghost use Rattle.law_moves.specs.ReadBack.Reading.{all_read_of};
ghost use Rattle.law_node_history.specs.Histories.{IsNew};
ghost use Rattle.law_peers_moments.specs.Expecting.{Expects};
ghost use Rattle.law_node_traces.specs.Traced.Cookies.{ByChanges};
ghost use Rattle.law_node_traces.specs.Traced.Ours.{AreOurs, deeds, rules};
ghost use Rattle.law_node_traces.specs.Traced.Recordings.{history_at};
ghost use Rattle.law_world_order.specs.Flows.{IsFlowing, numbers_of};
ghost use Rattle.law_world_order.specs.FirstTexts.{IsPort};

use crate::world_asked::heads::an_out_proxy_hears_its_clients_request;
use crate::world_asked::nodes::frames_come_to_an_out_proxy_behind_a_request;
use law_role_client_rows::a_client_opens_out_channels_in_order;
use law_role_outproxy::what_an_out_proxy_refuses;

/// In each world that changes of lines and half steps lead to from new roles, where the port of the
/// client's server is one, whichever moves lead to the roles: where the node of an out proxy goes
/// on and reads frames on the leg of its client, its role refuses the next of all that the client
/// put there neither as unexpected nor for its cookie (MS-RPCH 2.2.4; successors are this
/// profile's).
pub fn an_out_proxy_of_a_world_expects_its_client<K>()
    ensures { (m : Makers K InProxy OutProxy) (w : World K ClientRole Server InProxy OutProxy)
        → IsNew w → (ours : AreOurs m w.company w.cast) → IsPort ours.config.port
        → (v : World K ClientRole Server InProxy OutProxy) (by : ByChanges rules m deeds w v)
        → (flowing : IsFlowing (numbers_of ours) w v (history_at m w v by.leads)) → (n : ℕ)
        (end : NearEnd)
        → (let node = after_events out_proxy.rules (begun (new_proxy (ours.out_config n)) ROOMS)
        ((history_at m w v by.leads).outs n) in
        let leg = leg_at ClientOut n in
        node.course ≡ Going → end_at node leg ≡ Some end → end.intake.stage ≡ stage.Frames
        → Expects out_proxy.rules (flowing.flows.outs n).passage leg
        (all_read_of (of_leg leg flowing.flows.client.passage.passage.put))) }
{
    an_out_proxy_hears_its_clients_request::<K>();
    frames_come_to_an_out_proxy_behind_a_request::<K>();
    a_client_opens_out_channels_in_order();
    what_an_out_proxy_refuses();
}
