//! What a piece that reads well closes a node with. These functions do nothing: their contracts are
//! the laws.

ghost use Rattle.std.specs.Prelude.{◌≡◌, ◌++◌, List, Some, false, true, ℕ};
ghost use Rattle.std.specs.declared.option.Option.{Option};
ghost use Rattle.rh_sig.specs.declared.name.Pipe.{Pipe};
ghost use Rattle.rh_line.specs.declared.cause.Cause.{Cause};
ghost use Rattle.rh_line.specs.declared.leg.Leg.{Leg};
ghost use Rattle.rh_shell.specs.declared.course.Course.TheVariants.{Going};
ghost use Rattle.rh_shell.specs.declared.stage.Stage.{Stage};
ghost use Rattle.rh_shell.specs.declared.stage.Stage.TheVariants as stage;
ghost use Rattle.rh_shell.specs.Rules.{Message};
ghost use Rattle.rh_shell.specs.NearEnds.{NearEnd, is_over};
ghost use Rattle.rh_shell.specs.Shells.{Shell, end_at};
ghost use Rattle.rh_company.specs.declared.event.Event.TheVariants.{Comes};
ghost use Rattle.law_moves.specs.ReadBack.Reading.{reading};
ghost use Rattle.law_moves.specs.ReadBack.Well.{Answers, ReadsWell, ReadsWellFrom};
ghost use Rattle.law_node_causes.specs.Closings.{ClosesWith};
ghost use Rattle.law_node_streams.specs.Streams.{Seated, is_live};
ghost use Rattle.law_world_honest.specs.Honesty.Causes.{AreStrict, IsOfHeard, IsOfRole};
ghost use Rattle.law_world_honest.specs.Honesty.Heads.{IsWaitedFor, RefusesBadHead};

use law_moves::a_piece_reads_well;
use law_node_causes::{a_node_closes_once, events_close_with_their_causes};
use rh_shell::Role;

/// A piece that reads well where the node stands on a leg closes that node with no bad frame and no
/// bad packet, with a value out of range only where a row of the role refuses it, and with a bad
/// head only where the role refuses the one that was waited for.
pub fn a_piece_that_reads_well_closes_for_the_role<R: Role>()
    ensures { (well : Answers) (node : Shell R) (leg : Leg) (piece : List ℕ) (why : Cause)
        (end : NearEnd) (start : Stage) (from : ℕ) (bytes : List ℕ) → AreStrict well
        → end_at node leg ≡ Some end
        → (is_over R.rules end node.role ≡ false → is_live end.intake.stage ≡ true
        → ReadsWellFrom well end.pipe (reading end.intake.stage end.intake.held) piece)
        → (is_over R.rules end node.role ≡ false → end.intake.stage ≡ stage.Head
        → IsWaitedFor start from bytes end.intake.held piece)
        → ClosesWith R.rules node (Comes leg piece) why
        → IsOfRole R.rules end.leg (RefusesBadHead R.rules end.leg start from bytes) why }
{
    a_node_closes_once::<R>();
}

/// So it is of a piece behind what was heard on the leg, where both read well and the node stands
/// where the reading of what was heard does: a bad head is the one with which both begin.
pub fn what_is_heard_well_closes_for_the_role<R: Role>()
    ensures { (well : Answers) (node : Shell R) (leg : Leg) (piece : List ℕ) (why : Cause)
        (pipe : Option Pipe) (came put : List Message) (heard drawn : List ℕ) → AreStrict well
        → ReadsWell well pipe (heard ++ piece)
        → ((end : NearEnd) → node.course ≡ Going → end_at node leg ≡ Some end
        → Seated R.rules node.role pipe came put heard drawn end)
        → ClosesWith R.rules node (Comes leg piece) why
        → IsOfHeard R.rules leg pipe (heard ++ piece) why }
{
    a_piece_that_reads_well_closes_for_the_role::<R>();
    events_close_with_their_causes::<R>();
    a_node_closes_once::<R>();
    a_piece_reads_well();
}
