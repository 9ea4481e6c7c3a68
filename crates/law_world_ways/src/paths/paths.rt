//! What was given is what was taken and what is on its way. These functions do nothing: their
//! contracts are the laws.

ghost use Rattle.std.specs.Prelude.{◌≡◌, ◌++◌};
ghost use Rattle.law_order.specs.Paths.{path};
ghost use Rattle.rh_inproxy.specs.State.{InProxy};
ghost use Rattle.rh_outproxy.specs.OutProxy.{OutProxy};
ghost use Rattle.rh_client.specs.declared.state.ClientRole.{ClientRole};
ghost use Rattle.rh_client.specs.Client as client;
ghost use Rattle.rh_server.specs.States.{Server};
ghost use Rattle.rh_server.specs.Servers as server;
ghost use Rattle.rh_nodes.specs.World.{World};
ghost use Rattle.law_node_history.specs.Histories.{History};
ghost use Rattle.law_node_streams.specs.Streams.{all_given, all_taken};
ghost use Rattle.law_node_traces.specs.Traced.Ours.{rules};
ghost use Rattle.law_node_traces.specs.Traced.Recordings.{history_at};
ghost use Rattle.law_world_order.specs.Directions.{down_route_of, up_route_of};
ghost use Rattle.law_world_order.specs.Flows.{Numbers, numbers_of};
ghost use Rattle.law_world_order.specs.Premises.{AtEachMoment, InNewWorlds};
ghost use Rattle.law_world_ways.specs.OnPaths.Ways.{AreInUseDown, AreInUseUp, AreOnTheirWay};
ghost use Rattle.law_world_ways.specs.OnPaths.Ways.{down_on, up_on};

use crate::paths::drawn::what_was_forgotten_was_drawn;
use law_moves::all_that_was_put_is_read;
use law_node_begins::{a_client_begins_with_a_request, an_in_proxy_begins};
use law_node_traces::a_recording_of_roles_is_known;
use law_order::{nothing_is_lost, nothing_stands_behind_a_mark, what_can_be_taken_was_given};
use law_peers_routes::{what_goes_down_is_a_route, what_goes_up_is_a_route};

/// In each world of new roles whose numbers are in their ranges, at every moment that changes of
/// lines and half steps reach: what was put on a leg and did not come is what is read in the bytes
/// in flight there and those that are begun, also where the node that puts closed, unless the leg
/// gives nothing more. So what was given
/// is what was taken and what is on its way, while no leg of the channels from the one that is
/// taken to the one that is written on is lost before its handover mark or END passed. Whatever is
/// lost, what was given begins with what was taken and what can still be taken.
pub fn nothing_on_its_way_is_lost<K>()
    ensures { InNewWorlds K (λ m w ours. AtEachMoment m w (λ v by.
        AreOnTheirWay (numbers_of ours) v (history_at m w v by.leads))) }
{
    what_was_forgotten_was_drawn::<K>();
    what_goes_down_is_a_route();
    what_goes_up_is_a_route();
    nothing_is_lost();
    what_can_be_taken_was_given();
    nothing_stands_behind_a_mark();
    all_that_was_put_is_read();
    a_client_begins_with_a_request();
    an_in_proxy_begins();
    a_recording_of_roles_is_known::<K>();
}

/// So it is while each leg of these channels is in use, or its handover mark or END passed: both
/// nodes keep it; it is up for the one that takes, which goes on and has use for it; the one that
/// puts refuses nobody there, and may have closed, or left the leg once something came or was in
/// flight there.
pub fn legs_in_use_lose_nothing<K>()
    ensures down { (numbers : Numbers) (v : World K ClientRole Server InProxy OutProxy)
        (h : History) (ways : AreOnTheirWay numbers v h)
        → AreInUseDown numbers v h (down_route_of ways.directions)
        → all_given server.rules server.acts (server.new_server numbers.window) h.server
        ≡ all_taken client.rules client.acts (client.first_client numbers.client) h.client
        ++ path (down_route_of ways.directions) (down_on numbers v h) }
    ensures up { (numbers : Numbers) (v : World K ClientRole Server InProxy OutProxy)
        (h : History) (ways : AreOnTheirWay numbers v h)
        → AreInUseUp numbers v h (up_route_of ways.directions)
        → all_given client.rules client.acts (client.first_client numbers.client) h.client
        ≡ all_taken server.rules server.acts (server.new_server numbers.window) h.server
        ++ path (up_route_of ways.directions) (up_on numbers v h) }
{}
