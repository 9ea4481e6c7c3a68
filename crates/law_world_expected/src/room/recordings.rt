//! The nodes of a recording have room for what they forward. This function calls the laws that it
//! stands on: its contract is the law.

ghost use Rattle.std.specs.Prelude.{List};
ghost use Rattle.rh_line.specs.declared.cause.Cause.TheVariants.{ControlFull};
ghost use Rattle.rh_line.specs.declared.leg.Leg.{Leg};
ghost use Rattle.rh_record.specs.declared.answer.Answer.TheVariants.{NodeClosed};
ghost use Rattle.rh_record.specs.declared.answer.Who.{Who};
ghost use Rattle.rh_record.specs.declared.line.Line.{Line};
ghost use Rattle.law_node_history.specs.Closes.{IsOneOf};
ghost use Rattle.rh_world.specs.declared.any_world.AnyWorld.TheVariants.{Before};
ghost use Rattle.rh_world.specs.Any.{after, step};

use crate::room::worlds::no_node_lacks_room;
use law_world_order::cookies_of_a_recording_are_left;
use law_world_reports::each_close_of_a_recording_shows;
use rh_world::WorldConfig as Config;

/// In no recording does a report tell of a node that closed with `ControlFull`, whichever leg is
/// named: whatever a recording cuts, delays, breaks and replaces, never too many packets wait at a
/// node to be forwarded (profile).
pub fn no_node_of_a_recording_lacks_room()
    ensures { (before : List Line) (line : Line) (node : Who) (full : Leg)
        → IsOneOf (NodeClosed node (ControlFull full)) (step (after Before before) line).1 → ⊥ }
{
    cookies_of_a_recording_are_left();
    each_close_of_a_recording_shows();
    no_node_lacks_room::<Config>();
}
