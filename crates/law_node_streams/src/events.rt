//! The streams of a node and of an end. These functions do nothing: their contracts are the laws.

ghost use Rattle.std.specs.Prelude.{◌≡◌, List, Option};
ghost use Rattle.rh_sig.specs.declared.name.Pipe.{Pipe};
ghost use Rattle.rh_line.specs.declared.leg.Leg.{Leg};
ghost use Rattle.rh_shell.specs.declared.rooms.Rooms.{Rooms};
ghost use Rattle.rh_shell.specs.Shells.{begun};
ghost use Rattle.law_moves.specs.Moving.{EndEvent, Event};
ghost use Rattle.law_moves.specs.Turns.{RefusesInTurn};
ghost use Rattle.law_node_history.specs.Carried.{AreAccepted, AreAcceptedAtEnd};
ghost use Rattle.law_node_history.specs.Carried.{ComesUpOnce, ComesUpOnceAtEnd, happened};
ghost use Rattle.law_node_streams.specs.Streams.{EndStream, HasPipes, HearsInTurn, NeverRefuses};
ghost use Rattle.law_node_streams.specs.Streams.{RefusesFirst, StaysUnused, StaysUnusedAtEnd, Stream};

use rh_shell::{EndRole, Role};

/// Moves that are allowed lead to a node's role, whatever happens there. Each comes in its turn,
/// and a leg came up by them exactly where it came up by an event. What they took on each leg is a
/// front of the messages in the bytes that were heard; the bytes that were drawn are a front of
/// those that they put, or of a refusal where nothing was put. The count that comes with a packet
/// is of the packets that came on its leg before: none, one, or more.
///
/// Each head that came on a leg is the one with which the bytes there begin, whole at its end and
/// not before; and the client is refused for a leg that cannot be connected, or for such a head.
/// While the node goes on, it drew a front of what its role put, and what an end of it holds is
/// what is left of all bytes that it heard there.
///
/// It rests on what each role has to see to: the pipe of a leg never changes, a leg that is not in
/// use comes in use by coming up alone, and each comes up once. And for what was drawn: where the
/// client is refused on a leg by moves in their turn, nothing was put there before.
pub fn a_nodes_stream<R: Role>()
    ensures { (first : R) (rooms : Rooms) (pipe : Leg → Option Pipe) (events : List Event)
        → HasPipes R.rules first pipe → StaysUnused R.rules first
        → ComesUpOnce R.rules (begun first rooms) → AreAccepted R.rules (begun first rooms) events
        → HearsInTurn events → Stream R.rules first rooms pipe events }
{}

/// The same at an end, which refuses no client: what was drawn is a front of what its role put. The
/// PDUs that were given and taken are those that the end accepted, and those that it handed out. A
/// leg that came up by the moves with a cookie came up so by an event; where all cookies by events
/// have 16 bytes, those by the moves have. PDUs and packets came on legs that came up before, and
/// the count that comes with a packet is of those that came there before. While it goes on, what is
/// held on a leg is what is left of all bytes that it heard there.
pub fn an_ends_stream<R: EndRole>()
    ensures { (first : R) (rooms : Rooms) (pipe : Leg → Option Pipe) (events : List EndEvent)
        → ((s : R) (leg : Leg) → R.rules.pipe s leg ≡ pipe leg) → NeverRefuses R.rules
        → StaysUnusedAtEnd R.rules R.acts first
        → ComesUpOnceAtEnd R.rules R.acts (begun first rooms)
        → AreAcceptedAtEnd R.rules R.acts (begun first rooms) events
        → HearsInTurn (happened events) → EndStream R.rules R.acts first rooms pipe events }
{}

/// Where nothing was put before a refusal by any moves, nothing was by moves in their turn.
pub fn what_refuses_first_refuses_in_turn<R: Role>()
    ensures { (first : R) (pipe : Leg → Option Pipe) (leg : Leg)
        → RefusesFirst R.rules first pipe leg → RefusesInTurn R.rules first pipe leg }
{}
