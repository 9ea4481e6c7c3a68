//! What is on its way at every moment of every recording. This function does nothing: its contract
//! is the law.

ghost use Rattle.std.specs.Prelude.{List};
ghost use Rattle.rh_record.specs.declared.line.Line.{Line};
ghost use Rattle.rh_world.specs.declared.any_world.AnyWorld.TheVariants.{Before};
ghost use Rattle.rh_world.specs.Any.{after};
ghost use Rattle.law_world_ways.specs.OnPaths.Recordings.{KeepsWays};

use crate::paths::paths::nothing_on_its_way_is_lost;
use law_world_order::marks_are_last;
use law_world_reports::windows_hold_in_a_world_of_roles;
use rh_world::WorldConfig;

/// At every moment of every recording, which is behind any of its lines, and whatever they cut,
/// delay, break and replace: on each leg of a world of roles nothing stands behind a handover mark,
/// and what was given is what was taken and what is on its way, unless a leg is lost.
pub fn every_recording_keeps_what_is_on_its_way()
    ensures { (before : List Line) → KeepsWays (after Before before) }
{
    windows_hold_in_a_world_of_roles();
    marks_are_last::<WorldConfig>();
    nothing_on_its_way_is_lost::<WorldConfig>();
}
