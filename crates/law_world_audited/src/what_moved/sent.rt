//! What moved on each leg of a recording of roles. This function does nothing: its contract is the
//! law.

ghost use Rattle.std.specs.Prelude.{List, ◌∷◌, true};
ghost use Rattle.rh_record.specs.declared.line.Line.{Line};
ghost use Rattle.rh_record.specs.declared.line.Line.TheVariants.{First};
ghost use Rattle.law_world_audited.specs.Moving.Sent.{TellsSentOf};

use crate::what_moved::moves::a_recording_tells_what_moved;
use law_node_causes::a_proxy_refuses_for_a_reason;
use law_node_traces::a_recording_of_roles_is_known;
use law_world_order::a_world_of_roles_is_at_a_moment;
use rh_world::WorldConfig;

/// What the answers of a recording of roles tell moved on a pipe that a capture has is a front of
/// the bytes of what was put there, behind any lines; towards the client of an OUT channel it may be
/// of a refusal, where nothing was put. What was put begins as it is read there, and may go on the
/// pipe.
pub fn what_moved_is_of_what_was_put()
    ensures { (behind : List Line) → TellsSentOf (First true ∷ behind) }
{
    a_recording_tells_what_moved();
    a_proxy_refuses_for_a_reason();
    a_recording_of_roles_is_known::<WorldConfig>();
    a_world_of_roles_is_at_a_moment::<WorldConfig>();
}
