//! With which packets a client's channels begin. Its functions call laws that they stand on: their
//! contracts are the laws.

ghost use Rattle.std.specs.Prelude.{List};
ghost use Rattle.rh_http.specs.declared.config.ClientConfig.{ClientConfig};
ghost use Rattle.law_moves.specs.Moves.{EndMove};
ghost use Rattle.law_role_client.specs.Order.{AreAllowedMoves, client_moved};
ghost use Rattle.law_role_client_rows.specs.InTurn.Asking.{AsksOnceOnEach};

use crate::puts::{a_client_opens_in_channels_in_order, a_client_opens_out_channels_in_order};

/// Whatever happens to a client: what it put on a leg is a front of a text, one packet that asks,
/// and then RPC PDUs and packets none of which asks or is KeepAlive. CONN/B1 asks on the first ci
/// leg, IN_R1/A1 on each other; CONN/A1 on the first co leg, OUT_R1/A3 on each other (MS-RPCH
/// 2.2.4; successors are this profile's).
pub fn a_client_asks_once()
    ensures { (config : ClientConfig) (moves : List EndMove) → AreAllowedMoves config moves
        → AsksOnceOnEach (client_moved config moves).passage.put }
{
    a_client_opens_in_channels_in_order();
    a_client_opens_out_channels_in_order();
}
