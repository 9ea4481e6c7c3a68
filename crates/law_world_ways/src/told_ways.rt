//! What the report of a recording tells of what is on its way. This function does nothing: its
//! contract is the law.

ghost use Rattle.std.specs.Prelude.{List, ◌∷◌, true};
ghost use Rattle.rh_record.specs.declared.line.Line.{Line};
ghost use Rattle.rh_record.specs.declared.line.Line.TheVariants.{First};
ghost use Rattle.law_world_ways.specs.ToldWays.{TellsWays};

use crate::paths::nothing_on_its_way_is_lost;
use law_world_reports::a_recording_tells_its_history;
use rh_world::WorldConfig;

/// Behind any lines of a recording of roles, what the answers so far tell as given at one end is
/// what they tell as taken at the other and what is on its way, as long as no leg stops the way;
/// and whatever was lost, it begins with what was taken and what can still be taken.
pub fn a_recording_tells_what_is_on_its_way()
    ensures { (behind : List Line) → TellsWays (First true ∷ behind) }
{
    a_recording_tells_its_history();
    nothing_on_its_way_is_lost::<WorldConfig>();
}
