//! A clean end. This function does nothing: its contract is the law.

ghost use Rattle.std.specs.Prelude.{◌≡◌};
ghost use Rattle.rh_shell.specs.declared.answers.Phase.TheVariants.{Ended};
ghost use Rattle.law_node_traces.specs.Traced.Recordings.{history_at};
ghost use Rattle.law_world_order.specs.Flows.{numbers_of};
ghost use Rattle.law_world_order.specs.Premises.{AtEachMoment, InNewWorlds};
ghost use Rattle.law_world_ways.specs.OnPaths.Ways.{client_node};
ghost use Rattle.law_world_marks.specs.WentRound.{WentRound};

use law_node_marks::{
    a_node_goes_on_where_it_may_lose_a_leg, no_end_closes_an_out_proxy_behind_its_mark,
};
use law_node_traces::a_recording_of_roles_is_known;
use law_peers_routes::what_goes_down_is_a_route;
use law_role_client::{a_client_replaces_out_channels_one_by_one, a_client_takes_in_order};
use law_role_server::a_server_replaces_out_channels_one_by_one;
use law_world_order::{directions_are_joined, replacements_of_a_world_go_round};
use law_world_ways::a_leg_that_came_up_is_known;
use rh_client::ClientRole;

/// In each world of new roles whose numbers are in their ranges, at every moment that changes of
/// lines and half steps reach: where the client's work is done, the clean end went round. The server
/// writes on the client's current channel and put END/B1 there; and no end of a leg closes the
/// client, nor the out proxy of a channel that came up there, since that put OUT_R1/A10 or END/B2.
pub fn the_clean_end_went_round_where_a_client_is_done<K>()
    ensures { InNewWorlds K (λ m w ours. AtEachMoment m w (λ v by.
        (let h = history_at m w v by.leads in let numbers = numbers_of ours in
        (client_node numbers h).role.phase ≡ Ended → WentRound numbers h))) }
{
    directions_are_joined::<K>();
    replacements_of_a_world_go_round::<K>();
    a_recording_of_roles_is_known::<K>();
    what_goes_down_is_a_route();
    a_client_takes_in_order();
    a_client_replaces_out_channels_one_by_one();
    a_server_replaces_out_channels_one_by_one();
    a_leg_that_came_up_is_known();
    a_node_goes_on_where_it_may_lose_a_leg::<ClientRole>();
    no_end_closes_an_out_proxy_behind_its_mark();
}
