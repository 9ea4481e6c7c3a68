//! Recordings end legs. This function does nothing: its contract is the law.

ghost use Rattle.std.specs.Prelude.{◌≡◌, List, true};
ghost use Rattle.std.specs.List.{list_all};
ghost use Rattle.rh_record.specs.declared.line.Line.{Line};
ghost use Rattle.rh_world.specs.declared.any_world.AnyWorld.TheVariants.{Before};
ghost use Rattle.rh_world.specs.Any.{after};
ghost use Rattle.law_world_ways.specs.EndsInTime.Losses.{AllLoseInTime, IsEndedInTime, loses_no_leg};

/// A recording of roles whose `break` and `end` lines that are answered ok are each of a leg that
/// is over there, comes to a world by changes that end a leg only where it is over; so does one
/// that has neither line.
pub fn recordings_end_legs_in_time()
    ensures losses { (before : List Line) → AllLoseInTime Before before
        → IsEndedInTime (after Before before) }
    ensures none { (before : List Line) → list_all loses_no_leg before ≡ true
        → IsEndedInTime (after Before before) }
{}
