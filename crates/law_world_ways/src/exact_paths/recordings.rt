//! What is on its way in recordings. This function does nothing: its contract is the law.

ghost use Rattle.std.specs.Prelude.{◌≡◌, List, true};
ghost use Rattle.std.specs.List.{list_all};
ghost use Rattle.rh_record.specs.declared.line.Line.{Line};
ghost use Rattle.rh_world.specs.declared.any_world.AnyWorld.TheVariants.{Before};
ghost use Rattle.rh_world.specs.Any.{after};
ghost use Rattle.law_world_ways.specs.EndsInTime.Losses.{AllLoseInTime, loses_no_leg};
ghost use Rattle.law_world_ways.specs.ExactPaths.Exact.{KeepsAll};

use crate::ends_in_time::recordings_end_legs_in_time;
use crate::exact_paths::worlds::what_was_given_is_taken_or_on_its_way;
use crate::paths::nothing_on_its_way_is_lost;
use rh_world::WorldConfig;

/// A recording of roles whose `break` and `end` lines that are answered ok are each of a leg that
/// is over there loses nothing while all nodes go on; so does one that has neither line.
pub fn recordings_lose_nothing()
    ensures losses { (before : List Line) → AllLoseInTime Before before
        → KeepsAll (after Before before) }
    ensures none { (before : List Line) → list_all loses_no_leg before ≡ true
        → KeepsAll (after Before before) }
{
    recordings_end_legs_in_time();
    nothing_on_its_way_is_lost::<WorldConfig>();
    what_was_given_is_taken_or_on_its_way::<WorldConfig>();
}
