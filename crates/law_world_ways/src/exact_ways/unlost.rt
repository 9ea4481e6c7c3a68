//! What is on its way in a world in which no leg was lost. This function does nothing: its contract
//! is the law.

ghost use Rattle.std.specs.Prelude.{◌≡◌, ◌++◌};
ghost use Rattle.law_order.specs.Paths.{path};
ghost use Rattle.rh_client.specs.Client as client;
ghost use Rattle.rh_server.specs.Servers as server;
ghost use Rattle.law_node_streams.specs.Streams.{all_given, all_taken};
ghost use Rattle.law_node_traces.specs.Traced.Ours.{rules};
ghost use Rattle.law_node_traces.specs.Traced.Recordings.{history_at};
ghost use Rattle.law_world_order.specs.Directions.{down_route_of, up_route_of};
ghost use Rattle.law_world_order.specs.Flows.{numbers_of};
ghost use Rattle.law_world_order.specs.FirstTexts.{IsPort};
ghost use Rattle.law_world_order.specs.Premises.{AtEachMoment, InNewWorlds};
ghost use Rattle.law_world_ways.specs.OnPaths.Ways.{AreOnTheirWay, down_on, up_on};
ghost use Rattle.law_world_ways.specs.ExactWays.Unlost.{NoneIsLost};

use crate::exact_ways::going::legs_that_go_on_lose_nothing;
use crate::exact_ways::heads::no_head_that_comes_asks_for_an_echo;
use crate::exact_ways::keeping::{a_leg_of_use_is_kept, a_leg_that_came_up_is_known};
use crate::live_intakes::what_comes_is_read;
use law_node_ends::{
    a_server_is_done_behind_a_mark, an_in_proxy_is_done_behind_a_mark_or_end,
    an_out_proxy_is_done_behind_a_mark,
};
use law_node_traces::a_recording_of_roles_is_known;
use law_role_client::a_client_takes_in_order;

/// In each world of new roles whose numbers are in their ranges, where the port of the client's
/// server is one, at every moment that changes of lines and half steps reach: while all nodes go
/// on, no node was told that a leg ended or broke, and each leg that came up for a node is up for
/// it, what was given is exactly what was taken and what is on its way.
pub fn what_no_leg_lost_is_on_its_way<K>()
    ensures down { InNewWorlds K (λ m w ours. IsPort ours.config.port
        → AtEachMoment m w (λ v by.
        (let h = history_at m w v by.leads in
        let numbers = numbers_of ours in
        (ways : AreOnTheirWay numbers v h) → NoneIsLost numbers v h
        → all_given server.rules server.acts (server.new_server numbers.window) h.server
        ≡ all_taken client.rules client.acts (client.first_client numbers.client) h.client
        ++ path (down_route_of ways.directions) (down_on numbers v h)))) }
    ensures up { InNewWorlds K (λ m w ours. IsPort ours.config.port
        → AtEachMoment m w (λ v by.
        (let h = history_at m w v by.leads in
        let numbers = numbers_of ours in
        (ways : AreOnTheirWay numbers v h) → NoneIsLost numbers v h
        → all_given client.rules client.acts (client.first_client numbers.client) h.client
        ≡ all_taken server.rules server.acts (server.new_server numbers.window) h.server
        ++ path (up_route_of ways.directions) (up_on numbers v h)))) }
{
    legs_that_go_on_lose_nothing::<K>();
    no_head_that_comes_asks_for_an_echo::<K>();
    what_comes_is_read::<K>();
    a_leg_of_use_is_kept();
    a_leg_that_came_up_is_known();
    a_client_takes_in_order();
    a_server_is_done_behind_a_mark();
    an_in_proxy_is_done_behind_a_mark_or_end();
    an_out_proxy_is_done_behind_a_mark();
    a_recording_of_roles_is_known::<K>();
}
