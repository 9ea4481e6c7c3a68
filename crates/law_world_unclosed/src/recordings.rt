//! Which nodes close first in calm recordings. This function does nothing: its contract is the law.

ghost use Rattle.std.specs.Prelude.{◌≡◌, List, true};
ghost use Rattle.std.specs.List.{list_all};
ghost use Rattle.rh_line.specs.declared.cause.Cause.{Cause};
ghost use Rattle.rh_record.specs.declared.answer.Who.{Who};
ghost use Rattle.rh_record.specs.declared.line.Line.{Line};
ghost use Rattle.law_world_calm.specs.Calm.{is_calm};
ghost use Rattle.law_world_unclosed.specs.Late.{ClosedLate, ReportsClosed};

use law_node_causes::causes_come_from_their_events;
use law_node_history::what_is_reported_closed_was_closed;
use law_node_traces::a_recording_of_roles_is_known;
use law_world_calm::a_node_of_a_calm_recording_closes_for_an_end;
use law_world_marks::{nodes_go_on_where_legs_are_over_upwards, nodes_that_nothing_closed_go_on};
use law_world_reports::each_close_of_a_recording_shows;
use rh_client::ClientRole;
use rh_inproxy::InProxyRole;
use rh_outproxy::OutProxyRole;
use rh_server::ServerRole;
use rh_world::WorldConfig;

/// In a recording that has no `break` line, no `end` line and no `tick` of the least timeout or
/// more, no node is reported as closed, unless one is since a leg ended from the end nearer the
/// server: a leg of the client for the client, or a leg to the server for its proxy; or an is leg
/// for the server. So no proxy closes first since a leg of its client ended, nor the server since
/// an os leg did.
pub fn a_calm_recording_closes_no_node_unless_one_late()
    ensures { (lines : List Line) → list_all is_calm lines ≡ true
        → ((node : Who) (why : Cause) → ReportsClosed lines node why → ClosedLate node why → ⊥)
        → (node : Who) (why : Cause) → ReportsClosed lines node why → ⊥ }
{
    a_recording_of_roles_is_known::<WorldConfig>();
    nodes_that_nothing_closed_go_on::<WorldConfig>();
    nodes_go_on_where_legs_are_over_upwards::<WorldConfig>();
    causes_come_from_their_events::<ClientRole>();
    causes_come_from_their_events::<ServerRole>();
    causes_come_from_their_events::<InProxyRole>();
    causes_come_from_their_events::<OutProxyRole>();
    what_is_reported_closed_was_closed::<
        WorldConfig,
        ClientRole,
        ServerRole,
        InProxyRole,
        OutProxyRole,
    >();
    each_close_of_a_recording_shows();
    a_node_of_a_calm_recording_closes_for_an_end();
}
