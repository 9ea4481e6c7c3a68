//! What a server puts first. These functions do nothing: their contracts are the laws.

ghost use Rattle.std.specs.Prelude.{ℕ, List};
ghost use Rattle.std.specs.List.{AllByRecursion};
ghost use Rattle.rh_line.specs.declared.leg.Leg.{Leg};
ghost use Rattle.rh_server.specs.Servers.{rules, acts, first};
ghost use Rattle.law_moves.specs.Moves.{EndMove, AreAllowedAtEnd, end_started, all_end_moved};
ghost use Rattle.law_moves.specs.Wires.{of_leg};
ghost use Rattle.law_moves.specs.ReadBack.Well.{Answers, IsWellText};
ghost use Rattle.law_role_server.specs.Legible.{pipe_put};
ghost use Rattle.law_node_begins.specs.EndsBegin.{BeginsLegs};

use law_moves::{texts_are_whole, texts_read_well};

/// Whatever happens to a server: what it put on the leg of a proxy begins with the greeting
/// (profile), whole, and no other text is behind it. It puts nothing on legs of the client.
pub fn a_server_begins_with_a_greeting()
    ensures { (window : ℕ) (moves : List EndMove)
        → AreAllowedAtEnd rules acts (end_started (first window)) moves
        → BeginsLegs pipe_put
        (all_end_moved rules acts (end_started (first window)) moves).passage.put }
{
    texts_are_whole();
}

/// Each text that it puts reads well where it is read: it is the greeting.
pub fn what_a_server_puts_first_reads_well()
    ensures { (well : Answers) (window : ℕ) (moves : List EndMove)
        → AreAllowedAtEnd rules acts (end_started (first window)) moves → (leg : Leg)
        → AllByRecursion (IsWellText well (pipe_put leg))
        (of_leg leg (all_end_moved rules acts (end_started (first window)) moves).passage.put) }
{
    texts_read_well();
}
