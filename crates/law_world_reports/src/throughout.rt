//! What the nodes of a recording hold in each state that it passes through. This function does
//! nothing: its contract is the law.

ghost use Rattle.std.specs.Prelude.{List};
ghost use Rattle.rh_record.specs.declared.line.Line.{Line};
ghost use Rattle.rh_world.specs.declared.any_world.AnyWorld.TheVariants.{Before};
ghost use Rattle.rh_world.specs.Any.{after};
ghost use Rattle.law_world_reports.specs.Throughout.{WindowsHoldOnwards};

use crate::bounds::windows_hold_in_a_world_of_roles;

/// Behind any lines of a recording, and in each world that small changes lead to from there: each
/// node holds at most its window. Lines, rounds of settling and half steps are lists of such
/// changes, so it is in the midst of each of them.
pub fn windows_hold_throughout_every_recording()
    ensures { (before : List Line) → WindowsHoldOnwards (after Before before) }
{
    windows_hold_in_a_world_of_roles();
}
