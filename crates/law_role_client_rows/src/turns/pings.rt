//! No leg of a client begins by a Ping. Its function calls a law that it stands on: its contract is
//! the law.

ghost use Rattle.std.specs.Prelude.{List};
ghost use Rattle.rh_http.specs.declared.config.ClientConfig.{ClientConfig};
ghost use Rattle.law_moves.specs.Moves.{EndMove};
ghost use Rattle.law_role_client.specs.Order.{AreAllowedMoves, client_moved};
ghost use Rattle.law_role_client_rows.specs.InTurn.Pings.{BeginsWithoutPing};

use crate::turns::asking::a_client_asks_once;

/// Whatever happens to a client: the first packet that it put on a leg is no Ping (profile).
pub fn a_client_puts_no_ping_first()
    ensures { (config : ClientConfig) (moves : List EndMove) → AreAllowedMoves config moves
        → BeginsWithoutPing (client_moved config moves).passage.put }
{
    a_client_asks_once();
}
