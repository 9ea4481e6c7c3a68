//! What stands in the body of a leg's end. These functions do nothing: their contracts are the
//! laws.

ghost use Rattle.std.specs.Prelude.{◌≡◌, ◌++◌, List, Some, suc, ℕ};
ghost use Rattle.std.specs.declared.option.Option.{Option};
ghost use Rattle.rh_sig.specs.declared.name.Pipe.{Pipe};
ghost use Rattle.rh_line.specs.declared.cause.Cause.TheVariants.{BodyOver};
ghost use Rattle.rh_line.specs.declared.leg.Leg.{Leg};
ghost use Rattle.rh_shell.specs.declared.rooms.Rooms.{Rooms};
ghost use Rattle.rh_shell.specs.NearEnds.{NearEnd};
ghost use Rattle.rh_shell.specs.Shells.{begun, end_at};
ghost use Rattle.rh_company.specs.declared.event.Event.TheVariants.{Comes};
ghost use Rattle.law_moves.specs.Moving.{EndEvent, Event, after_end_events, after_events};
ghost use Rattle.law_node_history.specs.Carried.{AreAccepted, AreAcceptedAtEnd, ComesUpOnce};
ghost use Rattle.law_node_history.specs.Carried.{ComesUpOnceAtEnd, happened, heard_on};
ghost use Rattle.law_node_causes.specs.Closings.{ClosesWith};
ghost use Rattle.law_node_streams.specs.Streams.{HasPipes, HearsInTurn, NeverRefuses, StaysUnused};
ghost use Rattle.law_node_streams.specs.Streams.{StaysUnusedAtEnd};
ghost use Rattle.law_world_bodies.specs.Behind.{BodyIs, HasBody};

use law_node_causes::a_node_closes_once;
use law_node_streams::{a_nodes_stream, an_ends_stream};
use rh_shell::{EndRole, Role};

/// Whatever happens at a node: where a body is counted on a leg, the bytes that were heard there
/// begin with a whole head that its role took with that length, and at least so many bytes came
/// behind it as were counted. Where a piece closes the node as a body that is too long, more bytes
/// came behind that head than it told.
///
/// It rests on what each role has to see to for its stream (`a_nodes_stream`).
pub fn what_a_node_counts_came_behind_a_head<R: Role>()
    ensures counts { (first : R) (rooms : Rooms) (pipe : Leg → Option Pipe) (events : List Event)
        → HasPipes R.rules first pipe → StaysUnused R.rules first
        → ComesUpOnce R.rules (begun first rooms) → AreAccepted R.rules (begun first rooms) events
        → HearsInTurn events → (leg : Leg) (end : NearEnd)
        → end_at (after_events R.rules (begun first rooms) events) leg ≡ Some end
        → BodyIs R.rules (pipe leg) leg (heard_on leg events) end.intake.body }
    ensures over { (first : R) (rooms : Rooms) (pipe : Leg → Option Pipe) (events : List Event)
        → HasPipes R.rules first pipe → StaysUnused R.rules first
        → ComesUpOnce R.rules (begun first rooms) → AreAccepted R.rules (begun first rooms) events
        → HearsInTurn events → (leg named : Leg) (piece : List ℕ) (count told : ℕ)
        → ClosesWith R.rules (after_events R.rules (begun first rooms) events) (Comes leg piece)
        (BodyOver named count told)
        → (named ≡ leg)
        × HasBody R.rules (pipe leg) leg (heard_on leg events ++ piece) (suc told) told }
{
    a_nodes_stream::<R>();
    a_node_closes_once::<R>();
}

/// The same at an end, whose own calls change no leg.
pub fn what_an_end_counts_came_behind_a_head<R: EndRole>()
    ensures counts { (first : R) (rooms : Rooms) (pipe : Leg → Option Pipe)
        (events : List EndEvent) → ((s : R) (leg : Leg) → R.rules.pipe s leg ≡ pipe leg)
        → NeverRefuses R.rules → StaysUnusedAtEnd R.rules R.acts first
        → ComesUpOnceAtEnd R.rules R.acts (begun first rooms)
        → AreAcceptedAtEnd R.rules R.acts (begun first rooms) events
        → HearsInTurn (happened events) → (leg : Leg) (end : NearEnd)
        → end_at (after_end_events R.rules R.acts (begun first rooms) events) leg ≡ Some end
        → BodyIs R.rules (pipe leg) leg (heard_on leg (happened events)) end.intake.body }
    ensures over { (first : R) (rooms : Rooms) (pipe : Leg → Option Pipe) (events : List EndEvent)
        → ((s : R) (leg : Leg) → R.rules.pipe s leg ≡ pipe leg) → NeverRefuses R.rules
        → StaysUnusedAtEnd R.rules R.acts first
        → ComesUpOnceAtEnd R.rules R.acts (begun first rooms)
        → AreAcceptedAtEnd R.rules R.acts (begun first rooms) events
        → HearsInTurn (happened events) → (leg named : Leg) (piece : List ℕ) (count told : ℕ)
        → ClosesWith R.rules (after_end_events R.rules R.acts (begun first rooms) events)
        (Comes leg piece) (BodyOver named count told)
        → (named ≡ leg)
        × HasBody R.rules (pipe leg) leg (heard_on leg (happened events) ++ piece) (suc told)
        told }
{
    an_ends_stream::<R>();
    a_node_closes_once::<R>();
}
