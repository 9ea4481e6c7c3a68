//! Which nodes close in calm recordings. This function does nothing: its contract is the law.

ghost use Rattle.std.specs.Prelude.{◌≡◌, ◌++◌, ◌∷◌, List, [], true};
ghost use Rattle.std.specs.List.{list_all};
ghost use Rattle.rh_line.specs.declared.cause.Cause.{Cause};
ghost use Rattle.rh_record.specs.declared.answer.Answer.TheVariants.{NodeClosed};
ghost use Rattle.rh_record.specs.declared.answer.Who.{Who};
ghost use Rattle.rh_record.specs.declared.line.Line.{Line};
ghost use Rattle.law_node_history.specs.Closes.{IsOneOf};
ghost use Rattle.rh_world.specs.declared.any_world.AnyWorld.TheVariants.{Before};
ghost use Rattle.rh_world.specs.Any.{after, step};
ghost use Rattle.law_world_calm.specs.Calm.{IsEndOfLeg, is_calm, settles};

use crate::moments::no_node_falls_silent_before_the_least_timeout;
use crate::settling::no_leg_breaks_for_a_node_by_settling;
use law_world_bodies::no_body_of_a_recording_is_too_long;
use law_world_expected::{
    no_node_of_a_recording_lacks_room, no_node_of_a_recording_refuses_what_comes,
};
use law_world_honest::{
    a_refused_client_of_a_recording_lost_its_server, no_node_of_a_recording_closes_for_bad_bytes,
};
use law_world_reports::{
    a_node_of_a_recording_falls_silent, each_cause_of_a_recording_shows,
    each_close_of_a_recording_shows, only_a_client_of_a_recording_is_refused,
};
use law_world_windows::no_window_closes_a_node_of_a_recording;
use rh_world::WorldConfig;

/// In a recording that has no `break` line, no `end` line and no `tick` of the least timeout or
/// more, only a `settle` line reports a node as closed, and only since a leg ended which settling
/// ends, whose other end has finished it.
pub fn a_node_of_a_calm_recording_closes_for_an_end()
    ensures settles { (before : List Line) (line : Line) (node : Who) (why : Cause)
        → list_all is_calm (before ++ line ∷ []) ≡ true
        → IsOneOf (NodeClosed node why) (step (after Before before) line).1
        → settles line ≡ true }
    ensures ends { (before : List Line) (line : Line) (node : Who) (why : Cause)
        → list_all is_calm (before ++ line ∷ []) ≡ true
        → IsOneOf (NodeClosed node why) (step (after Before before) line).1
        → IsEndOfLeg why }
{
    each_close_of_a_recording_shows();
    each_cause_of_a_recording_shows();
    only_a_client_of_a_recording_is_refused();
    a_refused_client_of_a_recording_lost_its_server();
    a_node_of_a_recording_falls_silent();
    no_node_falls_silent_before_the_least_timeout::<WorldConfig>();
    no_leg_breaks_for_a_node_by_settling::<WorldConfig>();
    no_node_of_a_recording_closes_for_bad_bytes();
    no_node_of_a_recording_refuses_what_comes();
    no_window_closes_a_node_of_a_recording();
    no_body_of_a_recording_is_too_long();
    no_node_of_a_recording_lacks_room();
}
