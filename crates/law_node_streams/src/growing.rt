//! The streams of a node behind each front of its events. These functions do nothing: their
//! contracts are the laws.

ghost use Rattle.std.specs.Prelude.{◌≡◌, List, Option};
ghost use Rattle.rh_sig.specs.declared.name.Pipe.{Pipe};
ghost use Rattle.rh_line.specs.declared.leg.Leg.{Leg};
ghost use Rattle.rh_shell.specs.declared.rooms.Rooms.{Rooms};
ghost use Rattle.rh_shell.specs.Shells.{begun};
ghost use Rattle.law_moves.specs.Moving.{EndEvent, Event};
ghost use Rattle.law_node_history.specs.Carried.{AreAccepted, AreAcceptedAtEnd};
ghost use Rattle.law_node_history.specs.Carried.{ComesUpOnce, ComesUpOnceAtEnd, happened};
ghost use Rattle.law_node_streams.specs.Streams.{HasPipes, HearsInTurn, NeverRefuses};
ghost use Rattle.law_node_streams.specs.Streams.{StaysUnused, StaysUnusedAtEnd};
ghost use Rattle.law_node_streams.specs.Grown.{EndGrowing, Growing};

use rh_shell::{EndRole, Role};

/// The moves that lead to a node's role behind a front of its events are a front of those that lead
/// to it behind all of them: there are streams of the node behind each front, from none on, each of
/// which goes on with the moves of the one before. It rests on what the stream of a node rests on.
pub fn a_nodes_stream_grows<R: Role>()
    ensures { (first : R) (rooms : Rooms) (pipe : Leg → Option Pipe) (events : List Event)
        → HasPipes R.rules first pipe → StaysUnused R.rules first
        → ComesUpOnce R.rules (begun first rooms) → AreAccepted R.rules (begun first rooms) events
        → HearsInTurn events → Growing R.rules first rooms pipe events }
{}

/// The same at an end.
pub fn an_ends_stream_grows<R: EndRole>()
    ensures { (first : R) (rooms : Rooms) (pipe : Leg → Option Pipe) (events : List EndEvent)
        → ((s : R) (leg : Leg) → R.rules.pipe s leg ≡ pipe leg) → NeverRefuses R.rules
        → StaysUnusedAtEnd R.rules R.acts first
        → ComesUpOnceAtEnd R.rules R.acts (begun first rooms)
        → AreAcceptedAtEnd R.rules R.acts (begun first rooms) events
        → HearsInTurn (happened events) → EndGrowing R.rules R.acts first rooms pipe events }
{}
