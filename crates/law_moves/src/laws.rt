//! Laws of nodes. These functions do nothing: their contracts are the laws.

ghost use Rattle.std.specs.Prelude.{◌≡◌, ◌<◌, ◌+◌, ◌++◌, ℕ, List, length};
ghost use Rattle.rh_line.specs.declared.cause.Cause.{Cause};
ghost use Rattle.rh_line.specs.declared.leg.Leg.{Leg};
ghost use Rattle.rh_shell.specs.Hearing.{Turn, hear};
ghost use Rattle.rh_shell.specs.Shells.{Shell, bytes, drawn};
ghost use Rattle.law_moves.specs.Laws.{ClosedWith, Stays, then_drawn};

use rh_shell::role::Role;

/// It makes no difference how the bytes of a leg are cut. What is heard in two pieces is heard as
/// in one; and what comes to a node in two pieces leaves it as one does, with the same last answer.
///
/// A room that was filled, and then another one, get what one room gets of both sizes. Where a room
/// was not filled, a greater one would have got no more.
pub fn cuts_change_nothing<R: Role>()
    ensures heard { (now : ℕ) (turn : Turn R) (first second : List ℕ)
        → hear R.rules now turn (first ++ second)
        ≡ hear R.rules now (hear R.rules now turn first) second }
    ensures bytes { (node : Shell R) (leg : Leg) (first second : List ℕ)
        → bytes R.rules node leg (first ++ second)
        ≡ bytes R.rules (bytes R.rules node leg first).0 leg second }
    ensures filled { (node : Shell R) (leg : Leg) (room more : ℕ)
        → length (drawn R.rules node leg room).1 ≡ room
        → drawn R.rules node leg (room + more)
        ≡ then_drawn R.rules (drawn R.rules node leg room) leg more }
    ensures short { (node : Shell R) (leg : Leg) (room more : ℕ)
        → length (drawn R.rules node leg room).1 < room
        → drawn R.rules node leg (room + more) ≡ drawn R.rules node leg room }
{}

/// The first cause is kept: whatever comes to a node that closed, nothing changes and the answer is
/// that cause; and what is drawn keeps it.
pub fn first_cause_is_kept<R: Role>()
    ensures { (node : Shell R) (why : Cause) → ClosedWith why node.course
        → Stays R.rules node why }
{}
