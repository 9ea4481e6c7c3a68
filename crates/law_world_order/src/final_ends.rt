//! A clean end of a recording is final. This function does nothing: its contract is the law.

ghost use Rattle.std.specs.Prelude.{List};
ghost use Rattle.rh_record.specs.declared.line.Line.{Line};
ghost use Rattle.rh_world.specs.Any.{run};
ghost use Rattle.law_world_reports.specs.Ordering.Final.{EndsForGood};
ghost use Rattle.law_world_reports.specs.Ordering.Recordings.{OffersBehindFirst};

use crate::worlds::roles_keep_order;
use law_world_reports::a_recording_ends_for_good;
use rh_world::WorldConfig;

/// In the report of every recording that begins with its first line, whatever its lines cut, delay,
/// break and replace: where an end tells that no more comes, the other end was told before to give
/// no more, and it gives nothing behind.
pub fn every_recording_ends_for_good()
    ensures { (lines : List Line) → OffersBehindFirst lines → EndsForGood lines (run lines) }
{
    roles_keep_order::<WorldConfig>();
    a_recording_ends_for_good();
}
