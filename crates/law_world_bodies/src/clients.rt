//! How much a client puts behind its requests. This function does nothing: its contract is the law.

ghost use Rattle.std.specs.Prelude.{List};
ghost use Rattle.rh_http.specs.declared.config.ClientConfig.{ClientConfig};
ghost use Rattle.rh_line.specs.declared.leg.Leg.{Leg};
ghost use Rattle.law_moves.specs.Moves.{EndMove};
ghost use Rattle.law_moves.specs.Wires.{of_leg};
ghost use Rattle.law_moves.specs.Legible.Legible.{AllMayGo};
ghost use Rattle.law_role_client.specs.Legible.{HasCookies, HaveCookies, IsConfig, pipe_put};
ghost use Rattle.law_role_client.specs.Order.{AreAllowedMoves, client_moved};
ghost use Rattle.law_world_bodies.specs.Bodies.{KeepsLength, RequestTells};

use law_node_begins::a_client_begins_with_a_request;
use law_role_client::what_a_client_puts_reads_back;

/// Whatever happens to a client: behind the request on the leg of an IN channel it puts at most so
/// many bytes as its lifetime has, which the request tells; and on the leg of an OUT channel just
/// the packets that open it, or replace another, whose length the request tells (MS-RPCH 2.1.2,
/// 3.2.2). The packets have the lengths of their commands where their values have their sizes; so
/// it is of a client whose configuration is in range, with cookies of 16 bytes.
pub fn what_a_client_puts_keeps_its_lengths()
    ensures sized { (config : ClientConfig) (moves : List EndMove) → AreAllowedMoves config moves
        → AllMayGo pipe_put (client_moved config moves).passage.put → (leg : Leg)
        → KeepsLength (RequestTells config leg.kind)
        (of_leg leg (client_moved config moves).passage.put) }
    ensures each { (config : ClientConfig) (moves : List EndMove) → AreAllowedMoves config moves
        → IsConfig config → HasCookies config → HaveCookies moves → (leg : Leg)
        → KeepsLength (RequestTells config leg.kind)
        (of_leg leg (client_moved config moves).passage.put) }
{
    a_client_begins_with_a_request();
    what_a_client_puts_reads_back();
}
