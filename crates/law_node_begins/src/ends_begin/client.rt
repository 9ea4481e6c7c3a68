//! What a client puts first, and on which legs it writes. These functions do nothing: their
//! contracts are the laws.

ghost use Rattle.std.specs.Prelude.{List};
ghost use Rattle.std.specs.List.{AllByRecursion};
ghost use Rattle.rh_http.specs.declared.config.ClientConfig.{ClientConfig};
ghost use Rattle.rh_line.specs.declared.leg.Leg.{Leg};
ghost use Rattle.law_moves.specs.Moves.{EndMove};
ghost use Rattle.law_moves.specs.Wires.{of_leg};
ghost use Rattle.law_moves.specs.ReadBack.Well.{Answers, IsWellText};
ghost use Rattle.law_role_client.specs.Legible.{pipe_put};
ghost use Rattle.law_role_client.specs.Order.{AreAllowedMoves, client_moved};
ghost use Rattle.law_node_begins.specs.EndsBegin.{Asks, BeginsLegs};

use law_moves::{texts_are_whole, texts_read_well};

/// Whatever happens to a client: what it put on the leg of a channel begins with the request of
/// that channel, whole at its end and not before, and no other text is behind it (MS-RPCH 2.1.2).
/// It puts nothing on legs of the servers.
pub fn a_client_begins_with_a_request()
    ensures { (config : ClientConfig) (moves : List EndMove) → AreAllowedMoves config moves
        → BeginsLegs pipe_put (client_moved config moves).passage.put }
{
    texts_are_whole();
}

/// Each text that it put on the leg of a channel is the request of its configuration for such a
/// channel: for an IN channel the one that tells its lifetime, and for an OUT channel one that
/// tells the length of the packets behind it.
pub fn a_client_asks_by_its_requests()
    ensures { (config : ClientConfig) (moves : List EndMove) (leg : Leg)
        → AreAllowedMoves config moves
        → AllByRecursion (Asks config leg.kind)
        (of_leg leg (client_moved config moves).passage.put) }
{}

/// Each text that it puts reads well where it is read.
pub fn what_a_client_puts_first_reads_well()
    ensures { (well : Answers) (config : ClientConfig) (moves : List EndMove)
        → AreAllowedMoves config moves → (leg : Leg)
        → AllByRecursion (IsWellText well (pipe_put leg))
        (of_leg leg (client_moved config moves).passage.put) }
{
    texts_are_whole();
    texts_read_well();
}
