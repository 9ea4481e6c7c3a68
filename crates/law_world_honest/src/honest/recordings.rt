//! What closes no node of a recording. This function does nothing: its contract is the law.

ghost use Rattle.std.specs.Prelude.{List, ℕ};
ghost use Rattle.rh_pdu.specs.declared.fault.HeadFault.{HeadFault};
ghost use Rattle.rh_rts.specs.declared.fault.RtsFault.{RtsFault};
ghost use Rattle.rh_http.specs.declared.fault.HttpFault.{HttpFault};
ghost use Rattle.rh_line.specs.declared.cause.Cause.TheVariants.{BadFrame, BadHead, BadPacket};
ghost use Rattle.rh_line.specs.declared.leg.Leg.{Leg};
ghost use Rattle.rh_record.specs.declared.answer.Answer.TheVariants.{NodeClosed};
ghost use Rattle.rh_record.specs.declared.answer.Who.{Who};
ghost use Rattle.rh_record.specs.declared.line.Line.{Line};
ghost use Rattle.law_node_history.specs.Closes.{IsOneOf};
ghost use Rattle.rh_world.specs.declared.any_world.AnyWorld.TheVariants.{Before};
ghost use Rattle.rh_world.specs.Any.{after, step};

use crate::honest::worlds::no_change_closes_a_node_for_bad_bytes;
use law_world_reports::each_close_of_a_recording_shows;
use rh_world::WorldConfig;

/// In no recording does a report tell of a node that closed with `BadFrame`, with `BadPacket` or
/// with `BadHead`: whatever a recording cuts, delays, breaks and replaces, honest roles put frames,
/// packets and heads that read well.
pub fn no_node_of_a_recording_closes_for_bad_bytes()
    ensures frame { (before : List Line) (line : Line) (node : Who) (leg : Leg) (place : ℕ)
        (fault : HeadFault)
        → IsOneOf (NodeClosed node (BadFrame leg place fault)) (step (after Before before) line).1
        → ⊥ }
    ensures packet { (before : List Line) (line : Line) (node : Who) (leg : Leg) (place : ℕ)
        (fault : RtsFault)
        → IsOneOf (NodeClosed node (BadPacket leg place fault))
        (step (after Before before) line).1 → ⊥ }
    ensures head { (before : List Line) (line : Line) (node : Who) (leg : Leg) (place : ℕ)
        (fault : HttpFault)
        → IsOneOf (NodeClosed node (BadHead leg place fault)) (step (after Before before) line).1
        → ⊥ }
{
    each_close_of_a_recording_shows();
    no_change_closes_a_node_for_bad_bytes::<WorldConfig>();
}
