//! The legs that a node marks. These functions do nothing: their contracts are the laws.

ghost use Rattle.std.specs.Prelude.{◌≡◌, List, Some, false};
ghost use Rattle.rh_line.specs.declared.leg.Leg.{Leg};
ghost use Rattle.rh_shell.specs.declared.rooms.Rooms.{Rooms};
ghost use Rattle.rh_shell.specs.NearEnds.{NearEnd, is_marked};
ghost use Rattle.rh_shell.specs.Shells.{begun, end_at};
ghost use Rattle.law_moves.specs.Moving.{EndEvent, Event, after_end_events, after_events};
ghost use Rattle.law_node_history.specs.Carried.{happened};
ghost use Rattle.law_world_ways.specs.OnPaths.Lost.{was_lost};

use law_moves::{ends_move_by_their_rules, roles_move_by_their_rules};
use rh_shell::{EndRole, Role};

/// Whatever happens at a node: it marks no leg but one of which it was told that this ended or
/// broke.
pub fn a_node_marks_only_what_was_lost<R: Role>()
    ensures { (first : R) (rooms : Rooms) (events : List Event) (leg : Leg)
        → was_lost leg events ≡ false → (end : NearEnd)
        → end_at (after_events R.rules (begun first rooms) events) leg ≡ Some end
        → is_marked end.standing ≡ false }
{
    roles_move_by_their_rules::<R>();
}

/// Nor does an end.
pub fn an_end_marks_only_what_was_lost<R: EndRole>()
    ensures { (first : R) (rooms : Rooms) (events : List EndEvent) (leg : Leg)
        → was_lost leg (happened events) ≡ false → (end : NearEnd)
        → end_at (after_end_events R.rules R.acts (begun first rooms) events) leg ≡ Some end
        → is_marked end.standing ≡ false }
{
    ends_move_by_their_rules::<R>();
}
