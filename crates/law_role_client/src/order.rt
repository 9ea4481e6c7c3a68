//! Laws of order of a client alone, whatever its peers put. These functions do nothing: their
//! contracts are the laws.

ghost use Rattle.std.specs.Prelude.{List};
ghost use Rattle.rh_http.specs.declared.config.ClientConfig.{ClientConfig};
ghost use Rattle.law_moves.specs.Moves.{EndMove};
ghost use Rattle.law_role_client.specs.Order.{AreAllowedMoves, client_moved, GivesInOrder, TakesInOrder};

/// Whatever happens to a client: all PDUs that it accepted are those that it put on its IN
/// channels, in order, and then its queue. END is put only after `close`, once the queue is empty,
/// and nothing is put on a channel before the handover mark of the one before it.
pub fn a_client_gives_in_order()
    ensures { (config : ClientConfig) (moves : List EndMove) → AreAllowedMoves config moves
        → GivesInOrder (client_moved config moves) }
{}

/// Whatever happens to a client: what was taken from it, and then what it holds of the current OUT
/// channel, came on its OUT channels, in order. A channel is current only behind the handover mark
/// of the one before it, and the end is kept exactly where END came on a channel that is current or
/// was.
pub fn a_client_takes_in_order()
    ensures { (config : ClientConfig) (moves : List EndMove) → AreAllowedMoves config moves
        → TakesInOrder (client_moved config moves) }
{}
