//! The windows of a recording. This function does nothing: its contract is the law.

ghost use Rattle.std.specs.Prelude.{List, ℕ};
ghost use Rattle.rh_line.specs.declared.cause.Cause.TheVariants.{OutOfRange, WindowExceeded};
ghost use Rattle.rh_line.specs.declared.leg.Leg.{Leg};
ghost use Rattle.rh_record.specs.declared.answer.Answer.TheVariants.{NodeClosed};
ghost use Rattle.rh_record.specs.declared.answer.Who.{Who};
ghost use Rattle.rh_record.specs.declared.line.Line.{Line};
ghost use Rattle.law_node_history.specs.Closes.{IsOneOf};
ghost use Rattle.rh_world.specs.declared.any_world.AnyWorld.TheVariants.{Before};
ghost use Rattle.rh_world.specs.Any.{after, step};

use crate::windows::worlds::no_window_closes_a_node;
use law_world_order::cookies_of_a_recording_are_left;
use law_world_reports::each_close_of_a_recording_shows;
use rh_world::WorldConfig;

/// In no recording does a report tell of any node that closed with `WindowExceeded` or with
/// `OutOfRange`, whatever its leg is, and whatever the recording cuts, delays, breaks and replaces
/// (MS-RPCH 3.2, 3.2.1).
pub fn no_window_closes_a_node_of_a_recording()
    ensures windows { (before : List Line) (line : Line) (node : Who) (leg : Leg)
        (reached edge : ℕ)
        → IsOneOf (NodeClosed node (WindowExceeded leg reached edge))
        (step (after Before before) line).1 → ⊥ }
    ensures ranges { (before : List Line) (line : Line) (node : Who) (leg : Leg)
        (command value : ℕ)
        → IsOneOf (NodeClosed node (OutOfRange leg command value))
        (step (after Before before) line).1 → ⊥ }
{
    cookies_of_a_recording_are_left();
    each_close_of_a_recording_shows();
    no_window_closes_a_node::<WorldConfig>();
}
