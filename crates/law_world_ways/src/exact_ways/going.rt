//! Directions on whose legs nothing was lost. This function does nothing: its contract is the law.

ghost use Rattle.std.specs.Prelude.{◌≡◌, ◌++◌};
ghost use Rattle.law_order.specs.Paths.{path};
ghost use Rattle.rh_inproxy.specs.State.{InProxy};
ghost use Rattle.rh_outproxy.specs.OutProxy.{OutProxy};
ghost use Rattle.rh_client.specs.declared.state.ClientRole.{ClientRole};
ghost use Rattle.rh_client.specs.Client as client;
ghost use Rattle.rh_server.specs.States.{Server};
ghost use Rattle.rh_server.specs.Servers as server;
ghost use Rattle.rh_nodes.specs.World.{World};
ghost use Rattle.law_node_history.specs.Histories.{History};
ghost use Rattle.law_node_streams.specs.Streams.{all_given, all_taken};
ghost use Rattle.law_world_order.specs.Directions.{down_route_of, up_route_of};
ghost use Rattle.law_world_order.specs.Flows.{Numbers};
ghost use Rattle.law_world_ways.specs.OnPaths.Ways.{AreOnTheirWay, down_lost, down_on, up_lost, up_on};
ghost use Rattle.law_world_ways.specs.ExactWays.Pdus.{NoneStopsButBehindEnd};

use law_order::nothing_stands_behind_a_mark;
use law_peers_routes::{what_goes_down_is_a_route, what_goes_up_is_a_route};

/// What was given is what was taken and what is on its way while, of the channels from the taker's
/// current one up to that on which the giver writes, each leg gives all that was put there, or its
/// handover mark or END passed, or END came before on a channel that the same proxy reads.
pub fn legs_that_go_on_lose_nothing<K>()
    ensures down { (numbers : Numbers) (v : World K ClientRole Server InProxy OutProxy)
        (h : History) (ways : AreOnTheirWay numbers v h)
        → NoneStopsButBehindEnd (down_route_of ways.directions) (down_lost numbers v h)
        → all_given server.rules server.acts (server.new_server numbers.window) h.server
        ≡ all_taken client.rules client.acts (client.first_client numbers.client) h.client
        ++ path (down_route_of ways.directions) (down_on numbers v h) }
    ensures up { (numbers : Numbers) (v : World K ClientRole Server InProxy OutProxy)
        (h : History) (ways : AreOnTheirWay numbers v h)
        → NoneStopsButBehindEnd (up_route_of ways.directions) (up_lost numbers v h)
        → all_given client.rules client.acts (client.first_client numbers.client) h.client
        ≡ all_taken server.rules server.acts (server.new_server numbers.window) h.server
        ++ path (up_route_of ways.directions) (up_on numbers v h) }
{
    what_goes_down_is_a_route();
    what_goes_up_is_a_route();
    nothing_stands_behind_a_mark();
}
