//! A leg comes up at most once at a node. These functions do nothing: their contracts are the laws.

ghost use Rattle.std.specs.Prelude.{◌≡◌, List, true};
ghost use Rattle.rh_rts.specs.declared.command.Cookie.{Cookie};
ghost use Rattle.rh_line.specs.declared.leg.Leg.{Leg};
ghost use Rattle.rh_shell.specs.declared.rooms.Rooms.{Rooms};
ghost use Rattle.rh_shell.specs.Shells.{begun, may_up};
ghost use Rattle.law_moves.specs.Moving.{ComesUp, EndEvent, Event, Happens};
ghost use Rattle.law_moves.specs.Moving.{after_event, after_events, after_end_event};
ghost use Rattle.law_moves.specs.Moving.{after_end_events};
ghost use Rattle.law_node_causes.specs.Once.{AreNewLegs, AreNewLegsAtEnd, ComesUpOnce, KeepsUp, WasUp};

use law_moves::{ends_move_by_their_rules, roles_move_by_their_rules};
use rh_shell::{EndRole, Role};

/// A role, and what holds of it.
pub trait UpOnce: Role {
    ghost holds: { Self → Type 0 };
}

/// A leg comes up at most once at a node whose role says so of its moves, whatever happens there:
/// when it comes up it was up, and a leg that was up stays one, may not come up again, and is not
/// wanted any more. So each leg that comes up is none of those that the node keeps.
pub fn a_leg_comes_up_once<R: UpOnce>()
    requires { ComesUpOnce R.rules R.holds }
    ensures comes { (role : R) (rooms : Rooms) (events : List Event) (leg : Leg) (cookie : Cookie)
        → R.holds role
        → (let node = after_events R.rules (begun role rooms) events in
        may_up R.rules node leg ≡ true
        → WasUp R.rules (after_event R.rules node (ComesUp leg cookie)) leg) }
    ensures once { (role : R) (rooms : Rooms) (events later : List Event) (leg : Leg)
        → R.holds role
        → (let node = after_events R.rules (begun role rooms) events in
        R.rules.was_up node.role leg ≡ true → WasUp R.rules (after_events R.rules node later) leg) }
    ensures new { (role : R) (rooms : Rooms) (events : List Event) → R.holds role
        → AreNewLegs R.rules (begun role rooms) events }
{
    roles_move_by_their_rules::<R>();
}

/// The same at an end, where PDUs are given and taken besides, no more are given, and a channel is
/// replaced.
pub fn an_ends_leg_comes_up_once<R: UpOnce + EndRole>()
    requires moves { ComesUpOnce R.rules R.holds }
    requires calls { KeepsUp R.rules R.acts R.holds }
    ensures comes { (role : R) (rooms : Rooms) (events : List EndEvent) (leg : Leg)
        (cookie : Cookie) → R.holds role
        → (let node = after_end_events R.rules R.acts (begun role rooms) events in
        may_up R.rules node leg ≡ true
        → WasUp R.rules (after_event R.rules node (ComesUp leg cookie)) leg) }
    ensures once { (role : R) (rooms : Rooms) (events later : List EndEvent) (leg : Leg)
        → R.holds role
        → (let node = after_end_events R.rules R.acts (begun role rooms) events in
        R.rules.was_up node.role leg ≡ true
        → WasUp R.rules (after_end_events R.rules R.acts node later) leg) }
    ensures new { (role : R) (rooms : Rooms) (events : List EndEvent) → R.holds role
        → AreNewLegsAtEnd R.rules R.acts (begun role rooms) events }
    ensures holds { (role : R) (rooms : Rooms) (events : List EndEvent) → R.holds role
        → R.holds (after_end_events R.rules R.acts (begun role rooms) events).role }
{
    roles_move_by_their_rules::<R>();
    ends_move_by_their_rules::<R>();
}
