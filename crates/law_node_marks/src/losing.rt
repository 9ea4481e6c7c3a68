//! Nodes that lose legs. These functions do nothing: their contracts are the laws.

ghost use Rattle.std.specs.Prelude.{◌≡◌, List, Bool};
ghost use Rattle.rh_line.specs.declared.leg.Leg.{Leg};
ghost use Rattle.rh_shell.specs.Shells.{Shell, ended};
ghost use Rattle.law_moves.specs.Moving.{Event, after_events};
ghost use Rattle.law_node_marks.specs.Losing.{AllAgree, MayLose, marking};

use rh_shell::role::Role;

/// A node doesn't close where a leg ends that its role only marks, nor where its work is done; nor
/// where the role has no use for the leg any more, and all that was put there is drawn.
pub fn a_node_goes_on_where_it_may_lose_a_leg<R: Role>()
    ensures { (node : Shell R) (leg : Leg) → MayLose R.rules node leg
        → (ended R.rules node leg).0.course ≡ node.course }
{}

/// By rules that only mark other legs a node goes the same way, as long as they say the same of
/// each leg that it loses, when it loses that.
pub fn a_node_goes_by_rules_that_mark_the_same<R: Role>()
    ensures { (marks : R → Leg → Bool) (node : Shell R) (events : List Event)
        → AllAgree R.rules marks node events
        → after_events (marking R.rules marks) node events ≡ after_events R.rules node events }
{}
