//! What a node does to its role. These functions do nothing: their contracts are the laws.

ghost use Rattle.std.specs.Prelude.{◌≡◌, List, ℕ};
ghost use Rattle.rh_shell.specs.declared.rooms.Rooms.{Rooms};
ghost use Rattle.rh_shell.specs.NearEnds.{NearEnd};
ghost use Rattle.rh_shell.specs.Hearing.{hear, goes};
ghost use Rattle.rh_shell.specs.Drawing.{draw};
ghost use Rattle.rh_shell.specs.Shells.{Shell, begun};
ghost use Rattle.law_moves.specs.Moves.{Passage, EndPassage, started, end_started};
ghost use Rattle.law_moves.specs.Moving.{Event, EndEvent, IsHeld, AreHeld, Follows, EndFollows};
ghost use Rattle.law_moves.specs.Moving.{after_event, after_events};
ghost use Rattle.law_moves.specs.Moving.{after_end_event, after_end_events};
ghost use Rattle.law_moves.specs.Carrying.{Takes, Puts, Passes, EndPasses};
ghost use Rattle.law_moves.specs.Moving.{MovesKeep, FollowsKeeping};

use rh_shell::end_role::EndRole;
use rh_shell::role::Role;

/// A role goes on by its own rules alone: whatever happens at a node, moves that the role allows
/// lead from the role before to the role behind; and so it is of all that happens from the start.
pub fn roles_move_by_their_rules<R: Role>()
    ensures event { (passage : Passage R) (node : Shell R) (event : Event)
        → passage.role ≡ node.role → AreHeld node
        → Follows R.rules passage (after_event R.rules node event) }
    ensures run { (role : R) (rooms : Rooms) (events : List Event)
        → Follows R.rules (started role) (after_events R.rules (begun role rooms) events) }
{}

/// The same at an end, where PDUs are given and taken besides: those that it accepted are logged,
/// and those that were taken.
pub fn ends_move_by_their_rules<R: EndRole>()
    ensures event { (passage : EndPassage R) (node : Shell R) (event : EndEvent)
        → passage.passage.role ≡ node.role → AreHeld node
        → EndFollows R.rules R.acts passage (after_end_event R.rules R.acts node event) }
    ensures run { (role : R) (rooms : Rooms) (events : List EndEvent)
        → EndFollows R.rules R.acts (end_started role)
        (after_end_events R.rules R.acts (begun role rooms) events) }
{}

/// A role, and a property of what passed it.
pub trait Keeps: Role {
    ghost use Rattle.law_moves.specs.Moves.{Passage};

    ghost keeps: { Passage Self → Type 0 };
}

/// What each move keeps that the role allows, whatever happens at a node keeps.
pub fn what_moves_keep_events_keep<R: Keeps>()
    requires { MovesKeep R.rules R.keeps }
    ensures event { (passage : Passage R) (node : Shell R) (event : Event)
        → passage.role ≡ node.role → AreHeld node → R.keeps passage
        → FollowsKeeping R.rules R.keeps passage (after_event R.rules node event) }
    ensures run { (role : R) (rooms : Rooms) (events : List Event) → R.keeps (started role)
        → FollowsKeeping R.rules R.keeps (started role)
        (after_events R.rules (begun role rooms) events) }
{}

/// What the moves of an event log passed on a leg: the messages that were put, where bytes were
/// drawn, and the frames that were taken, where bytes came; in any other event nothing.
pub fn what_is_logged_passed_on_a_leg<R: Role>()
    ensures { (passage : Passage R) (node : Shell R) (event : Event)
        → passage.role ≡ node.role → AreHeld node
        → Passes R.rules passage node event }
{}

/// The same at an end: a PDU is logged as given where the caller was told that it was accepted, and
/// as taken where it was put into the caller's room.
pub fn what_is_logged_passed_at_an_end<R: EndRole>()
    ensures { (passage : EndPassage R) (node : Shell R) (event : EndEvent)
        → passage.passage.role ≡ node.role → AreHeld node
        → EndPasses R.rules R.acts passage node event }
{}

/// What comes on a leg of frames is cut into frames in order.
pub fn frames_are_taken_in_order<R: Role>()
    ensures { (now : ℕ) (passage : Passage R) (end : NearEnd) (piece : List ℕ)
        → IsHeld end
        → Takes R.rules passage end (hear R.rules now (goes end passage.role) piece) piece }
{}

/// What is drawn of a leg spells what was put there, in order.
pub fn messages_are_drawn_in_order<R: Role>()
    ensures { (now : ℕ) (passage : Passage R) (end : NearEnd) (room : ℕ)
        → Puts R.rules passage end (draw R.rules now room end passage.role) }
{}
