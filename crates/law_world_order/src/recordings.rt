//! The order law of every recording. This function does nothing: its contract is the law.

ghost use Rattle.std.specs.Prelude.{List};
ghost use Rattle.rh_record.specs.declared.line.Line.{Line};
ghost use Rattle.rh_record.specs.Events.Order.{IsOrdered};
ghost use Rattle.rh_world.specs.Any.{run};
ghost use Rattle.law_world_reports.specs.Ordering.Recordings.{OffersBehindFirst};

use crate::worlds::roles_keep_order;
use law_world_reports::a_recording_is_ordered;
use rh_world::WorldConfig;

/// The report of every recording that begins with its first line is in order, whatever its lines
/// cut, delay, break and replace: at every line what an end took is a front of what the other end
/// gave. It takes nothing once it closed or was told that no more comes, and then it took all; and
/// it gives nothing once it closed or was told to give no more.
pub fn every_recording_is_ordered()
    ensures { (lines : List Line) → OffersBehindFirst lines → IsOrdered lines (run lines) }
{
    roles_keep_order::<WorldConfig>();
    a_recording_is_ordered();
}
