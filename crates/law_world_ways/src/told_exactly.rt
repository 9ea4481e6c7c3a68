//! What the report of a recording tells that loses nothing. This function does nothing: its
//! contract is the law.

ghost use Rattle.std.specs.Prelude.{◌≡◌, List, ◌∷◌, true};
ghost use Rattle.std.specs.List.{list_all};
ghost use Rattle.rh_record.specs.declared.line.Line.{Line};
ghost use Rattle.rh_record.specs.declared.line.Line.TheVariants.{First};
ghost use Rattle.rh_world.specs.declared.any_world.AnyWorld.TheVariants.{Before};
ghost use Rattle.law_world_ways.specs.EndsInTime.Losses.{AllLoseInTime, loses_no_leg};
ghost use Rattle.law_world_ways.specs.ToldExactly.{TellsAllOf};

use crate::exact_paths::what_was_given_is_taken_or_on_its_way;
use crate::paths::nothing_on_its_way_is_lost;
use rh_world::WorldConfig;

/// Of a recording of roles whose `break` and `end` lines that are answered ok are each of a leg
/// that is over there: behind any of its lines, and while all nodes go on, what the answers so far
/// tell as given is exactly what they tell as taken and what is on its way; so it is of one that
/// has neither line.
pub fn a_recording_tells_all_that_it_keeps()
    ensures losses { (behind : List Line) → AllLoseInTime Before (First true ∷ behind)
        → TellsAllOf (First true ∷ behind) }
    ensures none { (behind : List Line) → list_all loses_no_leg behind ≡ true
        → TellsAllOf (First true ∷ behind) }
{
    nothing_on_its_way_is_lost::<WorldConfig>();
    what_was_given_is_taken_or_on_its_way::<WorldConfig>();
}
