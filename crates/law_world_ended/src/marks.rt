//! The ci legs that end in calm recordings. This function does nothing: its contract is the law.

ghost use Rattle.std.specs.Prelude.{◌≡◌, List, true};
ghost use Rattle.std.specs.List.{list_all};
ghost use Rattle.rh_line.specs.declared.cause.Cause.{Cause};
ghost use Rattle.rh_record.specs.declared.answer.Who.{Who};
ghost use Rattle.rh_record.specs.declared.line.Line.{Line};
ghost use Rattle.rh_world.specs.declared.any_world.AnyWorld.TheVariants.{Before};
ghost use Rattle.rh_world.specs.Any.{after};
ghost use Rattle.law_world_calm.specs.Calm.{is_calm};
ghost use Rattle.law_world_unclosed.specs.Late.{ReportsClosed};
ghost use Rattle.law_world_ended.specs.Handed.{AreEndedBehindMarks};
ghost use Rattle.law_world_ended.specs.StillLate.{ClosedStillLate};

use crate::recordings::a_calm_recording_closes_no_node_unless_one_still_late;

/// Behind such a recording, each in proxy lost its newest ci leg only once IN_R1/A5 came there, or
/// the client's work is done.
pub fn ci_legs_end_behind_handover_marks()
    ensures { (lines : List Line) → list_all is_calm lines ≡ true
        → ((node : Who) (why : Cause) → ReportsClosed lines node why → ClosedStillLate node why → ⊥)
        → AreEndedBehindMarks (after Before lines) }
{
    a_calm_recording_closes_no_node_unless_one_still_late();
}
