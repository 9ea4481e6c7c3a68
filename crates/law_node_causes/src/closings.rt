//! Which event closes a node with which cause. These functions do nothing: their contracts are the
//! laws.

ghost use Rattle.std.specs.Prelude.{◌≡◌, List, None};
ghost use Rattle.rh_line.specs.declared.cause.Cause.{Cause};
ghost use Rattle.rh_shell.specs.Shells.{Shell};
ghost use Rattle.rh_company.specs.declared.event.Event as told;
ghost use Rattle.rh_company.specs.Telling.{tell};
ghost use Rattle.law_moves.specs.Laws.{ClosedWith};
ghost use Rattle.law_moves.specs.Moving.{EndEvent, Event, after_end_events, after_events};
ghost use Rattle.law_node_causes.specs.Closings.{ClosesWith, ComesFrom, MayClose};

use rh_shell::{EndRole, Role};

/// What an event closes a node with, whatever its role is.
///
/// The end of a leg closes it with `LegEnded` of that leg, and tells how many bytes are held there
/// of an unfinished head, greeting or frame. A break closes it with `LegBroken` of that leg. A
/// moment closes it with `Silent` of the first leg, in the order of legs, that was silent as long
/// as the role allows, since the moment at which that leg was last heard. A piece closes it with
/// none of these, and with `HttpRefused` only where the role refused a whole head on that leg with
/// that status.
pub fn events_close_with_their_causes<R: Role>()
    ensures { (node : Shell R) (event : told.Event) (why : Cause)
        → ClosesWith R.rules node event why → MayClose R.rules node event why }
{}

/// So a node's cause tells the event that closed it: `LegBroken` a break of that leg, `LegEnded`
/// its end, `Silent` the moment that it names, `HttpRefused` a piece on that leg, in which the role
/// refused a head, and each other cause a piece.
pub fn causes_come_from_their_events<R: Role>()
    ensures { (node : Shell R) (event : told.Event) (why : Cause)
        → ClosesWith R.rules node event why → ComesFrom R.rules node event why }
{}

/// A node closes at most once: an event that closes it leaves it closed with that cause; whatever
/// happens then, it stays so; and no event closes it again.
pub fn a_node_closes_once<R: Role>()
    ensures closed { (node : Shell R) (event : told.Event) (why : Cause)
        → ClosesWith R.rules node event why
        → ClosedWith why (tell R.rules node event).0.course }
    ensures kept { (node : Shell R) (why : Cause) (later : List Event)
        → ClosedWith why node.course → ClosedWith why (after_events R.rules node later).course }
    ensures again { (node : Shell R) (why : Cause) (event : told.Event)
        → ClosedWith why node.course → (tell R.rules node event).1 ≡ None }
{}

/// The same at an end: its own calls keep the cause.
pub fn an_end_closes_once<R: EndRole>()
    ensures { (node : Shell R) (why : Cause) (later : List EndEvent)
        → ClosedWith why node.course
        → ClosedWith why (after_end_events R.rules R.acts node later).course }
{}
