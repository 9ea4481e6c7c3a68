//! The order law of every recording. This function does nothing: its contract is the law.

ghost use Rattle.std.specs.Prelude.{List};
ghost use Rattle.rh_record.specs.declared.line.Line.{Line};
ghost use Rattle.rh_record.specs.Events.Order.{IsOrdered};
ghost use Rattle.rh_world.specs.Any.{run};
ghost use Rattle.law_world_reports.specs.Ordering.Recordings.{OffersBehindFirst, RolesKeepOrder};

use crate::ordered::reports::a_report_is_ordered;
use rh_world::WorldConfig;

/// The report of every recording is in order: at every line what an end took is a front of what the
/// other end gave. It takes nothing once it closed or was told that no more comes, and then it took
/// all; and it gives nothing once it closed or was told to give no more.
pub fn a_recording_is_ordered()
    ensures { RolesKeepOrder → (lines : List Line) → OffersBehindFirst lines
        → IsOrdered lines (run lines) }
{
    a_report_is_ordered::<WorldConfig>();
}
