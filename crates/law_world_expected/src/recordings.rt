//! What comes at the nodes of a recording. This function calls the laws that it stands on: its
//! contract is the law.

ghost use Rattle.std.specs.Prelude.{List, ℕ};
ghost use Rattle.rh_rts.specs.declared.command.Cookie.{Cookie};
ghost use Rattle.rh_line.specs.declared.cause.Cause.TheVariants.{CookieMismatch, Unexpected};
ghost use Rattle.rh_line.specs.declared.leg.Leg.{Leg};
ghost use Rattle.rh_record.specs.declared.answer.Answer.TheVariants.{NodeClosed};
ghost use Rattle.rh_record.specs.declared.answer.Who.{Who};
ghost use Rattle.rh_record.specs.declared.line.Line.{Line};
ghost use Rattle.law_node_history.specs.Closes.{IsOneOf};
ghost use Rattle.rh_world.specs.declared.any_world.AnyWorld.TheVariants.{Before};
ghost use Rattle.rh_world.specs.Any.{after, step};

use crate::whole::no_node_refuses_what_comes;
use law_world_order::cookies_of_a_recording_are_left;
use law_world_reports::each_close_of_a_recording_shows;
use rh_world::WorldConfig as Config;

/// In no recording does a report tell of a node that closed with `Unexpected` or `CookieMismatch`,
/// on any leg: whatever a recording cuts, delays, breaks and replaces, what comes at a node comes
/// in its turn, and names the cookies that it knows (MS-RPCH 3.2; successors and the end are this
/// profile's).
pub fn no_node_of_a_recording_refuses_what_comes()
    ensures unexpected { (before : List Line) (line : Line) (node : Who) (leg : Leg) (place : ℕ)
        → IsOneOf (NodeClosed node (Unexpected leg place)) (step (after Before before) line).1
        → ⊥ }
    ensures cookie { (before : List Line) (line : Line) (node : Who) (leg : Leg)
        (expected got : Cookie)
        → IsOneOf (NodeClosed node (CookieMismatch leg expected got))
        (step (after Before before) line).1 → ⊥ }
{
    cookies_of_a_recording_are_left();
    each_close_of_a_recording_shows();
    no_node_refuses_what_comes::<Config>();
}
