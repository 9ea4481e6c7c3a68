//! Which nodes close first in calm recordings. This function does nothing: its contract is the law.

ghost use Rattle.std.specs.Prelude.{◌≡◌, List, true};
ghost use Rattle.std.specs.List.{list_all};
ghost use Rattle.rh_line.specs.declared.cause.Cause.{Cause};
ghost use Rattle.rh_record.specs.declared.answer.Who.{Who};
ghost use Rattle.rh_record.specs.declared.line.Line.{Line};
ghost use Rattle.rh_world.specs.declared.any_world.AnyWorld.TheVariants.{Before};
ghost use Rattle.rh_world.specs.Any.{after};
ghost use Rattle.law_world_calm.specs.Calm.{is_calm};
ghost use Rattle.law_world_unclosed.specs.Late.{ReportsClosed};
ghost use Rattle.law_world_ended.specs.Handed.{AreEndedBehindMarks};
ghost use Rattle.law_world_ended.specs.StillLate.{ClosedStillLate};

use law_node_causes::causes_come_from_their_events;
use law_node_history::what_is_reported_closed_was_closed;
use law_node_kept::{
    a_client_whose_work_is_done_is_done_for_good, an_in_proxy_may_lose_what_it_has_no_use_for,
    no_end_of_a_leg_that_it_is_done_with_closes_a_server, what_a_node_has_finished_is_drawn,
};
use law_node_lasting::an_in_proxy_that_lost_what_was_handed_over_is_over_once_told;
use law_node_marks::{
    a_node_goes_on_where_it_may_lose_a_leg, no_end_of_a_leg_that_was_handed_over_closes_a_server,
};
use law_node_traces::{
    a_proxy_that_was_let_go_has_no_leg_up, a_recording_of_roles_is_known,
    channels_come_up_in_order, legs_of_roles_come_up_once,
};
use law_role_marks::{
    a_client_leaves_what_was_handed_over, an_in_proxy_may_lose_what_was_handed_over,
};
use law_world_calm::a_node_of_a_calm_recording_closes_for_an_end;
use law_world_marks::{
    nodes_go_on_where_legs_are_over_upwards, nodes_that_nothing_closed_go_on,
    the_clean_end_went_round_where_a_client_is_done,
};
use law_world_reports::each_close_of_a_recording_shows;
use law_world_ways::{
    a_leg_of_use_is_kept, no_head_that_comes_asks_for_an_echo, what_comes_is_read,
    what_is_lost_in_time_had_passed,
};
use rh_client::ClientRole;
use rh_inproxy::InProxyRole;
use rh_outproxy::OutProxyRole;
use rh_server::ServerRole;
use rh_world::WorldConfig;

/// In a recording that has no `break` line, no `end` line and no `tick` of the least timeout or
/// more, no node is reported as closed, unless one is since a leg of the client ended for it from
/// the proxy's end, or a proxy's leg to the server for the proxy from the server's end. So no node
/// closes first since a leg ended from the end nearer the client, and the server closes for none.
/// Behind such a recording, each in proxy lost its newest ci leg only once IN_R1/A5 came there, or
/// the client's work is done.
pub fn a_calm_recording_closes_no_node_unless_one_still_late()
    ensures unclosed { (lines : List Line) → list_all is_calm lines ≡ true
        → ((node : Who) (why : Cause) → ReportsClosed lines node why → ClosedStillLate node why → ⊥)
        → (node : Who) (why : Cause) → ReportsClosed lines node why → ⊥ }
    ensures marked { (lines : List Line) → list_all is_calm lines ≡ true
        → ((node : Who) (why : Cause) → ReportsClosed lines node why → ClosedStillLate node why → ⊥)
        → AreEndedBehindMarks (after Before lines) }
{
    a_recording_of_roles_is_known::<WorldConfig>();
    nodes_that_nothing_closed_go_on::<WorldConfig>();
    nodes_go_on_where_legs_are_over_upwards::<WorldConfig>();
    the_clean_end_went_round_where_a_client_is_done::<WorldConfig>();
    what_is_lost_in_time_had_passed::<WorldConfig>();
    no_head_that_comes_asks_for_an_echo::<WorldConfig>();
    what_comes_is_read::<WorldConfig>();
    legs_of_roles_come_up_once::<WorldConfig>();
    channels_come_up_in_order::<WorldConfig, ClientRole, ServerRole, InProxyRole, OutProxyRole>();
    a_proxy_that_was_let_go_has_no_leg_up::<
        WorldConfig,
        ClientRole,
        ServerRole,
        InProxyRole,
        OutProxyRole,
    >();
    what_is_reported_closed_was_closed::<
        WorldConfig,
        ClientRole,
        ServerRole,
        InProxyRole,
        OutProxyRole,
    >();
    causes_come_from_their_events::<ClientRole>();
    causes_come_from_their_events::<ServerRole>();
    causes_come_from_their_events::<InProxyRole>();
    causes_come_from_their_events::<OutProxyRole>();
    each_close_of_a_recording_shows();
    a_node_of_a_calm_recording_closes_for_an_end();
    a_leg_of_use_is_kept();
    what_a_node_has_finished_is_drawn();
    a_client_leaves_what_was_handed_over();
    a_client_whose_work_is_done_is_done_for_good();
    an_in_proxy_may_lose_what_was_handed_over();
    an_in_proxy_may_lose_what_it_has_no_use_for();
    an_in_proxy_that_lost_what_was_handed_over_is_over_once_told();
    no_end_of_a_leg_that_it_is_done_with_closes_a_server();
    no_end_of_a_leg_that_was_handed_over_closes_a_server();
    a_node_goes_on_where_it_may_lose_a_leg::<ServerRole>();
}
