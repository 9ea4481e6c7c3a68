//! A body that is too long closes no node in a recording. This function does nothing: its contract
//! is the law.

ghost use Rattle.std.specs.Prelude.{List, ℕ};
ghost use Rattle.rh_line.specs.declared.cause.Cause.TheVariants.{BodyOver};
ghost use Rattle.rh_line.specs.declared.leg.Leg.{Leg};
ghost use Rattle.rh_record.specs.declared.answer.Answer.TheVariants.{NodeClosed};
ghost use Rattle.rh_record.specs.declared.answer.Who.{Who};
ghost use Rattle.rh_record.specs.declared.line.Line.{Line};
ghost use Rattle.law_node_history.specs.Closes.{IsOneOf};
ghost use Rattle.rh_world.specs.declared.any_world.AnyWorld.TheVariants.{Before};
ghost use Rattle.rh_world.specs.Any.{after, step};

use crate::worlds::no_change_closes_a_node_for_a_long_body;
use law_world_reports::each_close_of_a_recording_shows;
use rh_world::WorldConfig;

/// In no recording does a report tell of a node that closed with `BodyOver`: whatever a recording
/// cuts, delays, breaks and replaces, no node is sent more bytes behind a head than it told.
pub fn no_body_of_a_recording_is_too_long()
    ensures { (before : List Line) (line : Line) (node : Who) (leg : Leg) (count told : ℕ)
        → IsOneOf (NodeClosed node (BodyOver leg count told))
        (step (after Before before) line).1 → ⊥ }
{
    each_close_of_a_recording_shows();
    no_change_closes_a_node_for_a_long_body::<WorldConfig>();
}
